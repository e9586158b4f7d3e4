//! The law of merges by flags in parts, a function that takes and gives nothing and whose contract is the law.

ghost use Rattle.std.specs.Prelude.{◌≡◌, ℕ, Bool, true, List, ◌++◌, length, sum};
ghost use Rattle.call_laws.specs.InParts.{in_turn, in_two};
ghost use Rattle.flag_merges.specs.Merges.{are_counts, merge_of, seg_merge_of};

/// A merge whose flags are cut anywhere is that of the first flags, with as many elements as these take of each vector, and
/// behind it that of the others, with the elements left. A merge of segments whose vectors are all cut between the same two
/// segments is that of the first segments and that of the others; the place of a fault of these moves by the number of the first.
pub fn merges_in_parts<T>()
    ensures whole { (flags more : List Bool) (xs others ys rest : List T) → are_counts flags (length xs) (length ys) ≡ true →
        merge_of (flags ++ more) (xs ++ others) (ys ++ rest) ≡ in_turn (merge_of flags xs ys) (merge_of more others rest) }
    ensures segments { (flags more : List Bool) (xs others ys rest : List T) →
        (lengths later true_lengths true_later false_lengths false_later : List ℕ) →
        sum lengths ≡ length flags → sum true_lengths ≡ length xs → sum false_lengths ≡ length ys →
        sum later ≡ length more → sum true_later ≡ length others → sum false_later ≡ length rest →
        length true_lengths ≡ length lengths → length false_lengths ≡ length lengths →
        length true_later ≡ length later → length false_later ≡ length later →
        seg_merge_of (flags ++ more) (lengths ++ later) (xs ++ others) (true_lengths ++ true_later)
        (ys ++ rest) (false_lengths ++ false_later)
        ≡ in_two (length lengths) (seg_merge_of flags lengths xs true_lengths ys false_lengths)
        (seg_merge_of more later others true_later rest false_later) }
{}
