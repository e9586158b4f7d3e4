//! Worked values of permutes. Unless others are named the segments have 2, 0 and 3 elements.

ghost use Rattle.std.specs.Prelude.{◌≡◌, negsuc, pos, ℤ, Some, None, [], ◌∷◌};
ghost use Rattle.cvl_base.specs.declared.fault.FaultNo.TheVariants as no;
ghost use Rattle.cvl_base.specs.Nests.{nest};
ghost use Rattle.cvl_base.specs.Permutes.{back_of, default_of, select_of, simple_of, wrongs};
ghost use Rattle.cvl_base.specs.SegmentedCalls.{seg_back_of, seg_default_of, seg_select_of, seg_simple_of};
ghost use Rattle.worked_values.specs.OnSegments.{seg_back, seg_default, seg_select};
ghost use Rattle.worked_values.specs.Written.{bools, ints, length_mismatch, lengths, out_of_range, repeated, segments};

/// Each element is sent to its index, which counts from the start of its segment; an index that is used again is a fault where it
/// comes again; the first bad place of the vector is reported.
pub fn simple_permute()
    ensures integers_sent { simple_of (ints "10 20 30") (ints "2 0 1") ≡ Ok (ints "20 30 10") }
    ensures booleans_sent { simple_of (bools "T F F") (ints "2 0 1") ≡ Ok (bools "F F T") }
    ensures index_again { simple_of (ints "10 20 30") (ints "2 0 2") ≡ Err (repeated 2) }
    ensures outside_before_again { simple_of (ints "10 20 30") (ints "2 3 2") ≡ Err (out_of_range 1) }
    ensures both_outside { simple_of (ints "1 2") (ints "5 5") ≡ Err (out_of_range 0) }
    ensures outside_and_again { simple_of (ints "1") (ints "-1") ≡ Err (out_of_range 0) }
    ensures one_index_short { simple_of (ints "1 2") (ints "5") ≡ Err length_mismatch }
    ensures integers_sent_in_segments { seg_simple_of (ints "1 2 3 4 5") (ints "1 0 2 0 1") segments ≡ Ok (ints "2 1 4 5 3") }
    ensures booleans_sent_in_segments { seg_simple_of (bools "T F F T F") (ints "1 0 2 0 1") segments ≡ Ok (bools "F T T F F") }
    ensures outside_the_segment { seg_simple_of (ints "1 2 3 4 5") (ints "1 2 0 0 1") segments ≡ Err (out_of_range 1) }
    ensures again_in_last_segment { seg_simple_of (ints "1 2 3 4 5") (ints "0 1 1 0 1") segments ≡ Err (repeated 4) }
    ensures first_faulty_segment { seg_simple_of (ints "1 2 3 4 5") (ints "0 0 5 0 1") segments ≡ Err (repeated 1) }
    ensures index_shorter_than_segments { seg_simple_of (ints "1 2 3 4 5") (ints "9 9 9 9") segments ≡ Err length_mismatch }
    ensures source_shorter_than_segments { seg_simple_of (ints "1 2 3 4") (ints "9 9 9 9 9") segments ≡ Err length_mismatch }
    ensures both_shorter_than_segments { seg_simple_of (ints "1 2 3 4") (ints "9 9 9 9") segments ≡ Err length_mismatch }
    ensures both_longer_than_segments { seg_simple_of (ints "1 2 3 4 5 6") (ints "9 9 9 9 9 9") segments ≡ Err length_mismatch }
    ensures nothing_sent { simple_of {X = ℤ} [] [] ≡ Ok [] }
    ensures again_before_outside { simple_of (ints "1 2 3") (ints "0 0 5") ≡ Err (repeated 1) }
    ensures outside_at_the_first_place { simple_of (ints "1 2 3") (ints "5 0 0") ≡ Err (out_of_range 0) }
    ensures outside_in_the_first_faulty_segment { seg_simple_of (ints "1 2 3 4 5") (ints "0 2 1 0 1") segments
        ≡ Err (out_of_range 1) }
    ensures again_before_outside_in_a_segment { seg_simple_of (ints "1 2 3 4 5") (ints "0 1 0 0 5") segments ≡ Err (repeated 3) }
    ensures outside_before_again_in_a_segment { seg_simple_of (ints "1 2 3 4 5") (ints "0 1 0 5 0") segments
        ≡ Err (out_of_range 3) }
{}

/// Each element is taken from its index, which may come again; by segments the result is cut as the index, an index for
/// an empty segment of the source is out of range, and there are as many segments of the one as of the other.
pub fn back_permute()
    ensures integers_taken { back_of (ints "10 20 30") (ints "2 2 0 0") ≡ Ok (ints "30 30 10 10") }
    ensures booleans_taken { back_of (bools "T F F") (ints "2 0 0 1") ≡ Ok (bools "F T T F") }
    ensures nothing_taken { back_of (ints "10 20 30") [] ≡ Ok [] }
    ensures below { back_of (ints "10 20 30") (ints "0 -1") ≡ Err (out_of_range 1) }
    ensures past_the_end { back_of (ints "10 20 30") (ints "2 3 -1") ≡ Err (out_of_range 1) }
    ensures from_nothing { back_of {X = ℤ} [] (ints "0") ≡ Err (out_of_range 0) }
    ensures integers_taken_in_segments { seg_back "1 2 3 4 5" "1 1 1 2" ≡ Ok (ints "2 2 2 5") }
    ensures booleans_taken_in_segments { seg_back_of (bools "T F F T F") (ints "1 1 0 1") segments (lengths "3 0 1")
        ≡ Ok (bools "F F T T") }
    ensures from_empty_segment { seg_back_of (ints "1 2 3 4 5") (ints "0 0") segments (lengths "0 1 1") ≡ Err (out_of_range 0) }
    ensures past_the_last_segment { seg_back "1 2 3 4 5" "1 1 1 3" ≡ Err (out_of_range 3) }
    ensures source_shorter_than_segments { seg_back "1 2 3 4" "9 9 9 9" ≡ Err length_mismatch }
    ensures index_shorter_than_segments { seg_back "1 2 3 4 5" "9 9 9" ≡ Err length_mismatch }
    ensures one_segment_of_the_index_more { seg_back_of (ints "1 2") (ints "0 0") (lengths "1 1") (lengths "1 1 0")
        ≡ Err length_mismatch }
    ensures one_segment_of_the_index_less { seg_back_of (ints "1 2 3 4 5") (ints "9 9 9 9") segments (lengths "3 1")
        ≡ Err length_mismatch }
    ensures below_in_a_segment { seg_back "1 2 3 4 5" "1 -1 1 2" ≡ Err (out_of_range 1) }
    ensures no_segments { seg_back_of {X = ℤ} [] [] [] [] ≡ Ok [] }
    ensures one_empty_segment_of_the_index_alone { seg_back_of {X = ℤ} [] [] [] (lengths "0") ≡ Err length_mismatch }
    ensures one_empty_segment_of_the_source_alone { seg_back_of {X = ℤ} [] [] (lengths "0") [] ≡ Err length_mismatch }
{}

/// An index whose flag is false isn't checked, and the result, or each of its segments, has as many elements as there are true
/// flags.
pub fn select_permute()
    ensures unselected_not_looked_at { select_of (ints "1 2 3 4") (ints "1 9 0 9") (bools "T F T F") ≡ Ok (ints "3 1") }
    ensures booleans_selected { select_of (bools "T F F F") (ints "1 9 0 9") (bools "T F T F") ≡ Ok (bools "F T") }
    ensures none_selected { select_of (ints "1 2") (ints "9 -1") (bools "F F") ≡ Ok [] }
    ensures selected_again { select_of (ints "1 2 3") (ints "0 0 0") (bools "T F T") ≡ Err (repeated 2) }
    ensures beyond_the_selected { select_of (ints "1 2 3") (ints "2 0 1") (bools "T F T") ≡ Err (out_of_range 0) }
    ensures one_index_short { select_of (ints "1 2 3") (ints "9 9") (bools "T F T") ≡ Err length_mismatch }
    ensures one_flag_short { select_of (ints "1 2 3") (ints "9 9 9") (bools "T F") ≡ Err length_mismatch }
    ensures one_element_short { select_of (ints "1 2") (ints "9 9 9") (bools "T F T") ≡ Err length_mismatch }
    ensures integers_selected_in_segments { seg_select "1 2 3 4 5" "9 0 1 9 0" "F T T F T" ≡ Ok (ints "2 5 3") }
    ensures selected_nested { nest (lengths "1 0 2") (ints "2 5 3") ≡ Ok (ints "2" ∷ [] ∷ ints "5 3" ∷ []) }
    ensures booleans_selected_in_segments { seg_select_of (bools "T F F T T") (ints "9 0 1 9 0") (bools "F T T F T") segments
        ≡ Ok (bools "F T F") }
    ensures again_in_last_segment { seg_select "1 2 3 4 5" "9 0 1 9 1" "F T T F T" ≡ Err (repeated 4) }
    ensures beyond_the_selected_of_a_segment { seg_select "1 2 3 4 5" "9 0 0 9 2" "F T T F T" ≡ Err (out_of_range 4) }
    ensures source_shorter_than_segments { seg_select "1 2 3 4" "9 9 9 9 9" "F T T F T" ≡ Err length_mismatch }
    ensures index_shorter_than_segments { seg_select "1 2 3 4 5" "9 9 9 9" "F T T F T" ≡ Err length_mismatch }
    ensures flags_shorter_than_segments { seg_select "1 2 3 4 5" "9 9 9 9 9" "F T T F" ≡ Err length_mismatch }
    ensures all_longer_than_segments { seg_select "1 2 3 4 5 6" "9 9 9 9 9 9" "F T T F T T" ≡ Err length_mismatch }
    ensures below { select_of (ints "1 2") (ints "-1 -1") (bools "F T") ≡ Err (out_of_range 1) }
    ensures both_outside { select_of (ints "1 2 3") (ints "5 9 5") (bools "T F T") ≡ Err (out_of_range 0) }
    ensures again_before_outside { select_of (ints "1 2 3 4") (ints "0 9 0 7") (bools "T F T T") ≡ Err (repeated 2) }
    ensures outside_before_again { select_of (ints "1 2 3 4") (ints "0 9 7 0") (bools "T F T T") ≡ Err (out_of_range 2) }
    ensures again_in_the_first_faulty_segment { seg_select "1 2 3 4 5" "0 0 9 9 9" "T T F F T" ≡ Err (repeated 1) }
    ensures outside_in_the_first_faulty_segment { seg_select "1 2 3 4 5" "2 0 0 9 0" "T T T F T" ≡ Err (out_of_range 0) }
    ensures again_before_outside_in_a_segment { seg_select "1 2 3 4 5" "9 0 0 0 7" "F T T T T" ≡ Err (repeated 3) }
    ensures outside_before_again_in_a_segment { seg_select "1 2 3 4 5" "9 0 0 7 0" "F T T T T" ≡ Err (out_of_range 3) }
{}

/// The default stays where no element is sent, and an index must lie in the defaults; by segments the result is cut as
/// the defaults, an index must lie in its segment of them, and there are as many segments of them as of the source.
pub fn default_permute()
    ensures integers_sent_into_zeros { default_of (ints "7 8") (ints "3 1") (ints "0 0 0 0 0") ≡ Ok (ints "0 8 0 7 0") }
    ensures booleans_sent { default_of (bools "T F") (ints "3 1") (bools "F T F F T") ≡ Ok (bools "F F F T T") }
    ensures nothing_sent { default_of [] [] (ints "4 4") ≡ Ok (ints "4 4") }
    ensures outside_the_defaults { default_of (ints "7 8") (ints "3 5") (ints "0 0 0 0 0") ≡ Err (out_of_range 1) }
    ensures index_again { default_of (ints "7 8") (ints "3 3") (ints "0 0 0 0 0") ≡ Err (repeated 1) }
    ensures one_index_short { default_of (ints "7 8") (ints "9") (ints "0 0 0 0 0") ≡ Err length_mismatch }
    ensures integers_sent_in_segments { seg_default "1 2 3 4 5" "2 0 0 1 2" "0 0 0 9 0 0 0" ≡ Ok (ints "2 0 1 9 3 4 5") }
    ensures booleans_sent_in_segments { seg_default_of (bools "T T F T F") (ints "2 0 0 1 2") (bools "F F F T F F F")
        (lengths "2 0 3")
        (lengths "3 1 3") ≡ Ok (bools "T F T T F T F") }
    ensures outside_the_last_segment { seg_default "1 2 3 4 5" "2 0 0 1 3" "0 0 0 9 0 0 0" ≡ Err (out_of_range 4) }
    ensures again_in_last_segment { seg_default "1 2 3 4 5" "2 0 0 1 0" "0 0 0 9 0 0 0" ≡ Err (repeated 4) }
    ensures source_shorter_than_segments { seg_default "1 2 3 4" "9 9 9 9 9" "0 0 0 9 0 0 0" ≡ Err length_mismatch }
    ensures index_shorter_than_segments { seg_default "1 2 3 4 5" "9 9 9 9" "0 0 0 9 0 0 0" ≡ Err length_mismatch }
    ensures both_longer_than_segments { seg_default "1 2 3 4 5 6" "9 9 9 9 9 9" "0 0 0 9 0 0 0" ≡ Err length_mismatch }
    ensures defaults_shorter_than_segments { seg_default "1 2 3 4 5" "9 9 9 9 9" "0 0 0 9 0 0" ≡ Err length_mismatch }
    ensures defaults_longer_than_segments { seg_default "1 2 3 4 5" "9 9 9 9 9" "0 0 0 9 0 0 0 0" ≡ Err length_mismatch }
    ensures one_segment_of_the_defaults_more { seg_default_of (ints "1 2 3 4 5") (ints "9 9 9 9 9") (ints "0 0 0 9 0 0 0")
        (lengths "2 0 3")
        (lengths "3 1 3 0") ≡ Err length_mismatch }
    ensures one_segment_of_the_defaults_less { seg_default_of (ints "1 2 3 4 5") (ints "9 9 9 9 9") (ints "0 0 0 9 0 0 0")
        (lengths "2 0 3")
        (lengths "3 4") ≡ Err length_mismatch }
    ensures below { default_of (ints "7") (ints "-1") (ints "0") ≡ Err (out_of_range 0) }
    ensures sent_into_nothing { default_of (ints "7") (ints "0") [] ≡ Err (out_of_range 0) }
    ensures both_outside { default_of (ints "7 8") (ints "9 9") (ints "0 0 0") ≡ Err (out_of_range 0) }
    ensures again_before_outside { default_of (ints "7 8 9") (ints "0 0 9") (ints "0 0 0 0 0") ≡ Err (repeated 1) }
    ensures outside_before_again { default_of (ints "7 8 9") (ints "0 9 0") (ints "0 0 0 0 0") ≡ Err (out_of_range 1) }
    ensures again_in_the_first_faulty_segment { seg_default "1 2 3 4 5" "0 0 0 1 9" "0 0 0 9 0 0 0" ≡ Err (repeated 1) }
    ensures outside_in_the_first_faulty_segment { seg_default "1 2 3 4 5" "3 0 0 1 0" "0 0 0 9 0 0 0" ≡ Err (out_of_range 0) }
    ensures again_before_outside_in_a_segment { seg_default "1 2 3 4 5" "2 0 0 0 9" "0 0 0 9 0 0 0" ≡ Err (repeated 3) }
    ensures outside_before_again_in_a_segment { seg_default "1 2 3 4 5" "2 0 0 9 0" "0 0 0 9 0 0 0" ≡ Err (out_of_range 3) }
    ensures into_an_empty_segment_of_the_defaults { seg_default_of (ints "1 2") (ints "0 0") (ints "5") (lengths "1 1")
        (lengths "0 1")
        ≡ Err (out_of_range 0) }
    ensures no_segments { seg_default_of {X = ℤ} [] [] [] [] [] ≡ Ok [] }
    ensures one_empty_segment_of_the_defaults_alone { seg_default_of {X = ℤ} [] [] [] [] (lengths "0") ≡ Err length_mismatch }
{}

/// What is wrong with each destination: one outside is outside even if it comes again, and a place that takes no part is never
/// wrong and takes no destination.
pub fn bad_places()
    ensures outside_and_again { wrongs 2 (Some (pos 5) ∷ Some (pos 5) ∷ [])
        ≡ Some no.IndexOutOfRange ∷ Some no.IndexOutOfRange ∷ [] }
    ensures outside_and_again_after_a_good_one { wrongs 2 (Some (pos 0) ∷ Some (negsuc 0) ∷ Some (pos 0) ∷ Some (negsuc 0) ∷ [])
        ≡ None ∷ Some no.IndexOutOfRange ∷ Some no.IndexRepeated ∷ Some no.IndexOutOfRange ∷ [] }
    ensures taking_no_part { wrongs 2 (None ∷ Some (pos 0) ∷ None ∷ Some (pos 0) ∷ [])
        ≡ None ∷ None ∷ None ∷ Some no.IndexRepeated ∷ [] }
{}
