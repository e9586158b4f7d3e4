//! Laws of permutes in parts, each a function that takes and gives nothing and whose contract is the law.

ghost use Rattle.std.specs.Prelude.{◌≡◌, ◌+◌, ◌≤◌, ℕ, ℤ, Bool, Option, List, ◌++◌, length};
ghost use Rattle.call_laws.specs.InParts.{in_two};
ghost use Rattle.cvl_base.specs.Limits.{most_places};
ghost use Rattle.cvl_base.specs.Packs.{count_of};
ghost use Rattle.cvl_base.specs.Permutes.{all_destinations, back_of, default_of, flagged_destinations, select_of, simple_of};
ghost use Rattle.part_calls.specs.Ranges.{count_of_range, room_of_range};

/// A back permute by an index cut in two is the back permutes by the two parts, each from the whole source.
pub fn back_permute_in_parts<T>()
    ensures { (source : List T) (index more : List ℤ) →
        back_of source (index ++ more) ≡ in_two (length index) (back_of source index) (back_of source more) }
{}

/// A range of a permute's result cut in two is written as the two ranges are, and its count is the sum of theirs.
pub fn range_in_parts<T>()
    ensures written { (source : List T) (destinations : List (Option ℤ)) (low : ℕ) (room more : List T) →
        room_of_range source destinations low (room ++ more)
        ≡ room_of_range source destinations low room ++ room_of_range source destinations (low + length room) more }
    ensures counted { (destinations : List (Option ℤ)) (low n m : ℕ) →
        count_of_range destinations low (n + m) ≡ count_of_range destinations low n + count_of_range destinations (low + n) m }
{}

/// A simple permute by ranges of its result: it has one exactly if as many places get an element as there are indices, and that
/// is then what was written, over any room of its length.
pub fn simple_permute_by_ranges<T>()
    ensures written { (source room : List T) (index : List ℤ) → length source ≡ length index → length index ≤ most_places →
        length room ≡ length index → count_of_range (all_destinations index) 0 (length room) ≡ length index →
        simple_of source index ≡ Ok (room_of_range source (all_destinations index) 0 room) }
    ensures counted { (source room result : List T) (index : List ℤ) → length source ≡ length index
        → length index ≤ most_places →
        length room ≡ length index → simple_of source index ≡ Ok result →
        count_of_range (all_destinations index) 0 (length room) ≡ length index }
{}

/// The same for a select permute, in which as many indices take part as there are true flags.
pub fn select_permute_by_ranges<T>()
    ensures written { (source room : List T) (index : List ℤ) (flags : List Bool) → length source ≡ length index
        → length index ≤ most_places →
        length index ≡ length flags → length room ≡ count_of flags
        → count_of_range (flagged_destinations index flags) 0 (length room) ≡ count_of flags →
        select_of source index flags ≡ Ok (room_of_range source (flagged_destinations index flags) 0 room) }
    ensures counted { (source room result : List T) (index : List ℤ) (flags : List Bool) → length source ≡ length index
        → length index ≤ most_places →
        length index ≡ length flags → length room ≡ count_of flags → select_of source index flags ≡ Ok result →
        count_of_range (flagged_destinations index flags) 0 (length room) ≡ count_of flags }
{}

/// The same for a default permute, whose room holds the defaults.
pub fn default_permute_by_ranges<T>()
    ensures written { (source defaults : List T) (index : List ℤ) → length source ≡ length index → length index ≤ most_places →
        count_of_range (all_destinations index) 0 (length defaults) ≡ length index →
        default_of source index defaults ≡ Ok (room_of_range source (all_destinations index) 0 defaults) }
    ensures counted { (source defaults result : List T) (index : List ℤ) → length source ≡ length index
        → length index ≤ most_places →
        default_of source index defaults ≡ Ok result
        → count_of_range (all_destinations index) 0 (length defaults) ≡ length index }
{}
