//! The laws of slices and appends in parts, each a function that takes and gives nothing and whose contract is the law.

ghost use Rattle.std.specs.Prelude.{◌≡◌, ℕ, ℤ, List, ◌++◌, length, sum};
ghost use Rattle.call_laws.specs.InParts.{in_turn, in_two};
ghost use Rattle.segment_slices.specs.Pairs.{append_segments_of};
ghost use Rattle.segment_slices.specs.Slices.{gather_segments_of};

/// Slices in a row are the first of them, and behind these the others; the place of a fault of the others moves by the number of
/// the first.
pub fn slices_in_parts<T>()
    ensures { (source : List T) (starts more lengths later : List ℤ) →
        length starts ≡ length lengths → length more ≡ length later →
        gather_segments_of source (starts ++ more) (lengths ++ later)
        ≡ in_two (length starts) (gather_segments_of source starts lengths) (gather_segments_of source more later) }
{}

/// Two vectors whose segments stand behind one another are the first segments of both so, and behind these the others.
pub fn appends_in_parts<T>()
    ensures { (xs more ys rest : List T) (lengths later other_lengths other_later : List ℕ) →
        sum lengths ≡ length xs → sum other_lengths ≡ length ys → sum later ≡ length more → sum other_later ≡ length rest →
        length other_lengths ≡ length lengths → length other_later ≡ length later →
        append_segments_of (xs ++ more) (lengths ++ later) (ys ++ rest) (other_lengths ++ other_later)
        ≡ in_turn (append_segments_of xs lengths ys other_lengths) (append_segments_of more later rest other_later) }
{}
