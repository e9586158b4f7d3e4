//! The law of combining permutes and counts by ranges of their room, as a function that takes and gives nothing and whose
//! contract is the law.

ghost use Rattle.std.specs.Prelude.{◌≡◌, ◌↔◌, ◌+◌, ◌++◌, ℕ, ℤ, None, List, length};
ghost use Rattle.combining_permutes.specs.CombiningPermutes.{combined, named_between, place_counts};
ghost use Rattle.permute_walks.specs.Indices.{first_outside};

/// What is joined at the places of a range is what is joined in its parts, in order, and so are counts. As many indices name a
/// place of the range as name one of its parts. All indices name one of all places exactly if none is out of range.
pub fn combining_by_ranges<T>()
    ensures joined { (join : T → T → T) (sends : List (ℤ × T)) (low : ℕ) (front back : List T) →
        combined join sends low (front ++ back)
        ≡ combined join sends low front ++ combined join sends (low + length front) back }
    ensures counted { (index : List ℤ) (low m n : ℕ) →
        place_counts index low (m + n) ≡ place_counts index low m ++ place_counts index (low + m) n }
    ensures named { (index : List ℤ) (low m n : ℕ) →
        named_between index low (m + n) ≡ named_between index low m + named_between index (low + m) n }
    ensures all_named { (index : List ℤ) (m : ℕ) →
        (named_between index 0 m ≡ length index) ↔ (first_outside 0 m index ≡ None) }
{}
