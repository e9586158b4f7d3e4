//! Worked values of extract and replace. Unless others are named the segments have 2, 0 and 3 elements.

ghost use Rattle.std.specs.Prelude.{◌≡◌, negsuc, pos, true, false, ℤ, []};
ghost use Rattle.cvl_base.specs.Extracts.{extract_of, replace_of};
ghost use Rattle.cvl_base.specs.SegmentedCalls.{seg_extract_of, seg_replace_of};
ghost use Rattle.worked_values.specs.OnSegments.{seg_replace};
ghost use Rattle.worked_values.specs.Written.{bools, ints, length_mismatch, lengths, out_of_range, segments};

/// One element is read, or one of each segment; an index that isn't there is a fault at 0, the place of a single index,
/// or at the first such segment, and lengths that don't agree are one before it.
pub fn extract()
    ensures integer_read { extract_of (ints "1 2 3") (pos 2) ≡ Ok (pos 3) }
    ensures boolean_read { extract_of (bools "T F T") (pos 1) ≡ Ok false }
    ensures past_the_end { extract_of (ints "1 2 3") (pos 3) ≡ Err (out_of_range 0) }
    ensures below { extract_of (ints "1 2 3") (negsuc 0) ≡ Err (out_of_range 0) }
    ensures of_nothing { extract_of {X = ℤ} [] (pos 0) ≡ Err (out_of_range 0) }
    ensures integers_read_in_segments { seg_extract_of (ints "1 2 3 4 5") (ints "1 2") (lengths "2 3") ≡ Ok (ints "2 5") }
    ensures booleans_read_in_segments { seg_extract_of (bools "F T T F F") (ints "1 0") (lengths "2 3") ≡ Ok (bools "T T") }
    ensures no_segments { seg_extract_of {X = ℤ} [] [] [] ≡ Ok [] }
    ensures empty_segment { seg_extract_of (ints "1 2 3 4 5") (ints "1 0 2") segments ≡ Err (out_of_range 1) }
    ensures empty_segment_first { seg_extract_of (ints "1 2 3 4 5") (ints "0 1 2") (lengths "0 2 3") ≡ Err (out_of_range 0) }
    ensures empty_segment_last { seg_extract_of (ints "1 2 3 4 5") (ints "1 2 0") (lengths "2 3 0") ≡ Err (out_of_range 2) }
    ensures empty_segment_of_booleans { seg_extract_of (bools "T F F F T") (ints "0 0 2") segments ≡ Err (out_of_range 1) }
    ensures past_the_end_of_a_segment { seg_extract_of (ints "1 2 3 4 5") (ints "1 3") (lengths "2 3") ≡ Err (out_of_range 1) }
    ensures below_a_segment { seg_extract_of (ints "1 2 3 4 5") (ints "-1 9") (lengths "2 3") ≡ Err (out_of_range 0) }
    ensures shorter_than_segments { seg_extract_of (ints "1 2 3 4") (ints "9 9 9") segments ≡ Err length_mismatch }
    ensures longer_than_segments { seg_extract_of (ints "1 2 3 4 5 6") (ints "9 9 9") segments ≡ Err length_mismatch }
    ensures one_index_less { seg_extract_of (ints "1 2 3 4 5") (ints "9 9") segments ≡ Err length_mismatch }
    ensures one_index_more { seg_extract_of (ints "1 2 3 4 5") (ints "9 9 9 9") segments ≡ Err length_mismatch }
    ensures no_index_for_an_empty_segment { seg_extract_of {X = ℤ} [] [] (lengths "0") ≡ Err length_mismatch }
    ensures index_for_an_empty_segment_alone { seg_extract_of {X = ℤ} [] (ints "0") (lengths "0") ≡ Err (out_of_range 0) }
    ensures index_for_no_segment { seg_extract_of {X = ℤ} [] (ints "0") [] ≡ Err length_mismatch }
{}

/// One element is changed, or one of each segment; an index that isn't there is a fault at 0, the place of a single
/// index, or at the first such segment, and lengths that don't agree are one before it.
pub fn replace()
    ensures integer_changed { replace_of (ints "1 2 3") (pos 1) (pos 9) ≡ Ok (ints "1 9 3") }
    ensures boolean_changed { replace_of (bools "F F F") (pos 1) true ≡ Ok (bools "F T F") }
    ensures past_the_end { replace_of (ints "1 2 3") (pos 3) (pos 9) ≡ Err (out_of_range 0) }
    ensures past_the_end_of_booleans { replace_of (bools "F F F") (pos 3) true ≡ Err (out_of_range 0) }
    ensures below { replace_of (ints "1 2 3") (negsuc 0) (pos 9) ≡ Err (out_of_range 0) }
    ensures integers_changed_in_segments { seg_replace "1 2 3 4 5" "0 1" "8 9" "2 3" ≡ Ok (ints "8 2 3 9 5") }
    ensures booleans_changed_in_segments { seg_replace_of (bools "F F F F F") (ints "1 0") (bools "T T") (lengths "2 3")
        ≡ Ok (bools "F T T F F") }
    ensures no_segments { seg_replace_of {X = ℤ} [] [] [] [] ≡ Ok [] }
    ensures empty_segment { seg_replace "1 2 3 4 5" "1 0 2" "7 8 9" "2 0 3" ≡ Err (out_of_range 1) }
    ensures empty_segment_of_booleans { seg_replace_of (bools "T F F F T") (ints "0 0 2") (bools "F F F") segments
        ≡ Err (out_of_range 1) }
    ensures past_the_end_of_a_segment { seg_replace "1 2 3 4 5" "0 3" "8 9" "2 3" ≡ Err (out_of_range 1) }
    ensures below_a_segment { seg_replace "1 2 3 4 5" "-1 9" "8 9" "2 3" ≡ Err (out_of_range 0) }
    ensures shorter_than_segments { seg_replace "1 2 3 4" "9 9 9" "7 8 9" "2 0 3" ≡ Err length_mismatch }
    ensures longer_than_segments { seg_replace "1 2 3 4 5 6" "9 9 9" "7 8 9" "2 0 3" ≡ Err length_mismatch }
    ensures one_index_less { seg_replace "1 2 3 4 5" "9 9" "7 8 9" "2 0 3" ≡ Err length_mismatch }
    ensures one_index_more { seg_replace "1 2 3 4 5" "9 9 9 9" "7 8 9" "2 0 3" ≡ Err length_mismatch }
    ensures one_value_less { seg_replace "1 2 3 4 5" "9 9 9" "7 8" "2 0 3" ≡ Err length_mismatch }
    ensures one_value_more { seg_replace "1 2 3 4 5" "9 9 9" "7 8 9 9" "2 0 3" ≡ Err length_mismatch }
    ensures one_of_both_less { seg_replace "1 2 3 4 5" "9 9" "7 8" "2 0 3" ≡ Err length_mismatch }
    ensures of_nothing { replace_of {X = ℤ} [] (pos 0) (pos 9) ≡ Err (out_of_range 0) }
    ensures one_of_both_more { seg_replace "1 2 3 4 5" "9 9 9 9" "7 8 9 9" "2 0 3" ≡ Err length_mismatch }
    ensures no_value_for_an_empty_segment { seg_replace_of {X = ℤ} [] (ints "0") [] (lengths "0") ≡ Err length_mismatch }
    ensures value_for_no_segment { seg_replace_of [] [] (ints "7") [] ≡ Err length_mismatch }
{}
