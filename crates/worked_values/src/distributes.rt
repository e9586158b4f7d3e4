//! Worked values of distribute and index. Unless others are named the segments have 2, 0 and 3 elements.

ghost use Rattle.std.specs.Prelude.{◌≡◌, negsuc, pos, true, ℤ, []};
ghost use Rattle.cvl_base.specs.declared.fault.FaultNo.TheVariants as no;
ghost use Rattle.cvl_base.specs.Distributes.{as_length, distribute_of, distribute_within, index_of, length_within};
ghost use Rattle.cvl_base.specs.Faults.{fault};
ghost use Rattle.cvl_base.specs.Limits.{most_places};
ghost use Rattle.cvl_base.specs.SegmentedCalls.{seg_distribute_of, seg_index_of};
ghost use Rattle.worked_values.specs.Written.{bools, ints, length_mismatch, lengths, segments};

/// As many copies of a value as a count says, which may be as great as the limit and else is a fault without a place; by segments
/// one value for each, the empty one too.
pub fn distribute()
    ensures integers { distribute_of (pos 7) (pos 3) ≡ Ok (ints "7 7 7") }
    ensures booleans { distribute_of true (pos 3) ≡ Ok (bools "T T T") }
    ensures no_copies { distribute_of (pos 7) (pos 0) ≡ Ok [] }
    ensures count_at_limit { as_length (pos 4194304) ≡ Ok 4194304 }
    ensures long_count_at_limit { length_within most_places (pos 2147483647) ≡ Ok 2147483647 }
    ensures far_too_many_integers { distribute_within most_places (pos 7) (pos 2147483648) ≡ Err (fault no.TooLong) }
    ensures too_many_integers { distribute_of (pos 7) (pos 4194305) ≡ Err (fault no.TooLong) }
    ensures too_many_booleans { distribute_of true (pos 4194305) ≡ Err (fault no.TooLong) }
    ensures negative_count_of_integers { distribute_of (pos 7) (negsuc 0) ≡ Err (fault no.NegativeLength) }
    ensures negative_count_of_booleans { distribute_of true (negsuc 0) ≡ Err (fault no.NegativeLength) }
    ensures integers_in_segments { seg_distribute_of (ints "7 8 9") segments ≡ Ok (ints "7 7 9 9 9") }
    ensures booleans_in_segments { seg_distribute_of (bools "T T F") segments ≡ Ok (bools "T T F F F") }
    ensures no_segments { seg_distribute_of {X = ℤ} [] [] ≡ Ok [] }
    ensures one_value_short { seg_distribute_of (ints "7 8") segments ≡ Err length_mismatch }
    ensures one_value_more { seg_distribute_of (ints "7 8 9 9") segments ≡ Err length_mismatch }
    ensures one_boolean_short { seg_distribute_of (bools "T F") segments ≡ Err length_mismatch }
    ensures value_for_no_segment { seg_distribute_of (ints "7") [] ≡ Err length_mismatch }
    ensures no_value_for_an_empty_segment { seg_distribute_of {X = ℤ} [] (lengths "0") ≡ Err length_mismatch }
    ensures nothing_for_empty_segments { seg_distribute_of (ints "7 8") (lengths "0 0") ≡ Ok [] }
{}

/// Numbers at equal distances, which wrap; by segments there are as many beginnings and
/// strides as segments, empty ones too.
pub fn index()
    ensures steps { index_of (pos 0) (pos 1) (pos 3) ≡ Ok (ints "0 1 2") }
    ensures no_steps { index_of (pos 5) (pos 1) (pos 0) ≡ Ok [] }
    ensures wrapped { index_of (pos 2147483647) (pos 1) (pos 2) ≡ Ok (ints "2147483647 -2147483648") }
    ensures too_many_steps { index_of (pos 0) (pos 1) (pos 4194305) ≡ Err (fault no.TooLong) }
    ensures negative_count { index_of (pos 0) (pos 1) (negsuc 0) ≡ Err (fault no.NegativeLength) }
    ensures steps_in_segments { seg_index_of (ints "0 5 10") (ints "1 1 -2") segments ≡ Ok (ints "0 1 10 8 6") }
    ensures wrapped_in_segments { seg_index_of (ints "2147483647 0 5") (ints "1 0 -5") segments
        ≡ Ok (ints "2147483647 -2147483648 5 0 -5") }
    ensures no_segments { seg_index_of [] [] [] ≡ Ok [] }
    ensures one_beginning_short { seg_index_of (ints "0 5") (ints "1 1 -2") segments ≡ Err length_mismatch }
    ensures one_beginning_more { seg_index_of (ints "0 5 10 15") (ints "1 1 -2") segments ≡ Err length_mismatch }
    ensures one_stride_short { seg_index_of (ints "0 5 10") (ints "1 1") segments ≡ Err length_mismatch }
    ensures one_stride_more { seg_index_of (ints "0 5 10") (ints "1 1 -2 4") segments ≡ Err length_mismatch }
    ensures one_of_both_short { seg_index_of (ints "0 5") (ints "1 1") segments ≡ Err length_mismatch }
    ensures one_of_both_more { seg_index_of (ints "0 5 10 15") (ints "1 1 -2 4") segments ≡ Err length_mismatch }
    ensures steps_down { index_of (pos 10) (negsuc 1) (pos 3) ≡ Ok (ints "10 8 6") }
    ensures no_stride { index_of (pos 5) (pos 0) (pos 2) ≡ Ok (ints "5 5") }
    ensures strides_wrapped { index_of (pos 0) (pos 2147483647) (pos 3) ≡ Ok (ints "0 2147483647 -2") }
    ensures none_for_an_empty_segment { seg_index_of [] [] (lengths "0") ≡ Err length_mismatch }
{}
