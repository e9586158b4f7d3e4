//! Worked values of counts and packs. Unless others are named the segments have 2, 0 and 3 elements.

ghost use Rattle.std.specs.Prelude.{◌≡◌, ℤ, [], ◌∷◌};
ghost use Rattle.cvl_base.specs.Nests.{nest};
ghost use Rattle.cvl_base.specs.Packs.{count_of, pack_of};
ghost use Rattle.cvl_base.specs.SegmentedCalls.{seg_count_of, seg_pack_of};
ghost use Rattle.worked_values.specs.Written.{bools, ints, length_mismatch, lengths, segments};

/// The number of true flags, or of those in each of the segments with 2, 0 and 3 elements, which cut the result of a
/// segmented pack or select permute.
pub fn count()
    ensures counted { count_of (bools "F T T F T") ≡ 3 }
    ensures counted_of_nothing { count_of [] ≡ 0 }
    ensures counted_in_segments { seg_count_of (bools "F F T F T") segments ≡ Ok (lengths "0 0 2") }
    ensures counted_in_two_segments { seg_count_of (bools "F T T F T") segments ≡ Ok (lengths "1 0 2") }
    ensures counted_in_no_segments { seg_count_of [] [] ≡ Ok [] }
    ensures shorter_than_segments { seg_count_of (bools "F F T F") segments ≡ Err length_mismatch }
    ensures longer_than_segments { seg_count_of (bools "F F T F T T") segments ≡ Err length_mismatch }
{}

/// What is flagged is kept, in order, and so it is in the segments with 2, 0 and 3 elements, where values and flags are
/// as long as the segments together.
pub fn pack()
    ensures integers_kept { pack_of (ints "1 2 3 4 5") (bools "F T T F T") ≡ Ok (ints "2 3 5") }
    ensures booleans_kept { pack_of (bools "T F T") (bools "F T T") ≡ Ok (bools "F T") }
    ensures kept_of_nothing { pack_of {X = ℤ} [] [] ≡ Ok [] }
    ensures one_flag_short { pack_of (ints "1 2") (bools "F") ≡ Err length_mismatch }
    ensures one_flag_more { pack_of (ints "1 2") (bools "F T F") ≡ Err length_mismatch }
    ensures integers_kept_in_segments { seg_pack_of (ints "1 2 3 4 5") (bools "F F T F T") segments ≡ Ok (ints "3 5") }
    ensures kept_nested { nest (lengths "0 0 2") (ints "3 5") ≡ Ok ([] ∷ [] ∷ ints "3 5" ∷ []) }
    ensures booleans_kept_in_segments { seg_pack_of (bools "T F T F T") (bools "T F F T T") segments ≡ Ok (bools "T F T") }
    ensures values_shorter_than_segments { seg_pack_of (ints "1 2 3 4") (bools "F F T F T") segments ≡ Err length_mismatch }
    ensures flags_shorter_than_segments { seg_pack_of (ints "1 2 3 4 5") (bools "F F T F") segments ≡ Err length_mismatch }
    ensures both_shorter_than_segments { seg_pack_of (ints "1 2 3 4") (bools "F F T F") segments ≡ Err length_mismatch }
    ensures both_longer_than_segments { seg_pack_of (ints "1 2 3 4 5 6") (bools "F F T F T T") segments ≡ Err length_mismatch }
    ensures all_kept { pack_of (ints "1 2") (bools "T T") ≡ Ok (ints "1 2") }
    ensures none_kept { pack_of (ints "1 2") (bools "F F") ≡ Ok [] }
    ensures no_segments { seg_pack_of {X = ℤ} [] [] [] ≡ Ok [] }
{}
