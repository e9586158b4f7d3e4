//! Worked values of slices in a row, of segments appended, of merges by flags and of values of segments. Unless others are named
//! the segments have 2, 0 and 3 elements.

ghost use Rattle.std.specs.Prelude.{◌≡◌, ℤ, [], Ok, Err};
ghost use Rattle.cvl_base.specs.Exact.{total_of};
ghost use Rattle.flag_merges.specs.Merges.{merge_of, seg_merge_of};
ghost use Rattle.segment_slices.specs.Pairs.{append_segments_of};
ghost use Rattle.segment_slices.specs.Slices.{gather_segments_of};
ghost use Rattle.segment_values.specs.Values.{each_of, first_true_of};
ghost use Rattle.worked_values.specs.Written.{bools, ints, length_mismatch, lengths, other_length, out_of_range, segments};

/// Slices may overlap, come in any order and be empty, also at the end of the source; the fault is the first not within it.
pub fn gathered()
    ensures in_any_order { gather_segments_of (ints "10 20 30 40 50") (ints "3 0 1") (ints "2 2 0") ≡ Ok (ints "40 50 10 20") }
    ensures overlapping { gather_segments_of (ints "10 20 30 40 50") (ints "0 1") (ints "3 3") ≡ Ok (ints "10 20 30 20 30 40") }
    ensures of_booleans { gather_segments_of (bools "T F F") (ints "2 0") (ints "1 2") ≡ Ok (bools "F T F") }
    ensures empty_at_the_end { gather_segments_of (ints "10 20") (ints "2 0") (ints "0 1") ≡ Ok (ints "10") }
    ensures none { gather_segments_of (ints "10 20") [] [] ≡ Ok [] }
    ensures of_nothing { gather_segments_of {X = ℤ} [] (ints "0") (ints "0") ≡ Ok [] }
    ensures past_the_end { gather_segments_of (ints "10 20 30 40 50") (ints "0 3") (ints "1 3") ≡ Err (out_of_range 1) }
    ensures empty_behind_the_end { gather_segments_of (ints "10 20") (ints "0 3") (ints "2 0") ≡ Err (out_of_range 1) }
    ensures below { gather_segments_of (ints "10 20") (ints "0 -1 9") (ints "2 1 9") ≡ Err (out_of_range 1) }
    ensures negative { gather_segments_of (ints "10 20") (ints "1 1") (ints "1 -1") ≡ Err (out_of_range 1) }
    ensures a_sum_that_would_wrap { gather_segments_of (ints "10 20") (ints "2147483647") (ints "2147483647")
        ≡ Err (out_of_range 0) }
    ensures starts_short { gather_segments_of (ints "10 20") (ints "9") (ints "9 9") ≡ Err length_mismatch }
{}

/// Each segment of the first vector is followed by that of the second; both must have as many segments.
pub fn appended()
    ensures by_segments { append_segments_of (ints "1 2 3 4 5") segments (ints "6 7 8 9") (lengths "0 1 3")
        ≡ Ok (ints "1 2 6 3 4 5 7 8 9") }
    ensures of_booleans { append_segments_of (bools "T T") (lengths "1 1") (bools "F F") (lengths "1 1") ≡ Ok (bools "T F T F") }
    ensures nothing { append_segments_of {X = ℤ} [] [] [] [] ≡ Ok [] }
    ensures other_count { append_segments_of (ints "1 2 3 4 5") segments (ints "6 7") (lengths "1 1") ≡ Err length_mismatch }
    ensures first_short { append_segments_of (ints "1 2 3 4") segments (ints "6") (lengths "0 0 1") ≡ Err length_mismatch }
    ensures second_long { append_segments_of (ints "1 2 3 4 5") segments (ints "6 7") (lengths "0 0 1") ≡ Err length_mismatch }
{}

/// The next element of one vector or of the other, by a flag; by segments the fault is the first whose flags have other counts.
pub fn merged_by_flags()
    ensures by_turns { merge_of (bools "T F F T") (ints "1 2") (ints "7 8") ≡ Ok (ints "1 7 8 2") }
    ensures of_booleans { merge_of (bools "F T F") (bools "T") (bools "F F") ≡ Ok (bools "F T F") }
    ensures all_of_one { merge_of (bools "F F") [] (ints "7 8") ≡ Ok (ints "7 8") }
    ensures nothing { merge_of {X = ℤ} [] [] [] ≡ Ok [] }
    ensures one_short { merge_of (bools "T T F") (ints "1") (ints "7") ≡ Err length_mismatch }
    ensures one_more { merge_of (bools "T F") (ints "1 2") (ints "7") ≡ Err length_mismatch }
    ensures swapped { merge_of (bools "T F F") (ints "1 2") (ints "7") ≡ Err length_mismatch }
    ensures in_segments { seg_merge_of (bools "T F F F T") segments (ints "1 2") (lengths "1 0 1") (ints "7 8 9")
        (lengths "1 0 2") ≡ Ok (ints "1 7 8 9 2") }
    ensures counts_of_the_whole_alone { seg_merge_of (bools "T F F F T") segments (ints "1 2") (lengths "1 1 0") (ints "7 8 9")
        (lengths "1 0 2") ≡ Err (other_length 1) }
    ensures false_ones_of_a_segment { seg_merge_of (bools "T F F F T") segments (ints "1 2") (lengths "1 0 1") (ints "7 8 9")
        (lengths "2 0 1") ≡ Err (other_length 0) }
    ensures other_segments { seg_merge_of (bools "T F F F T") segments (ints "1 2") (lengths "1 1") (ints "7 8 9")
        (lengths "1 0 2") ≡ Err length_mismatch }
    ensures flags_short { seg_merge_of (bools "T F F F") segments (ints "1 2") (lengths "1 0 1") (ints "7 8 9") (lengths "1 0 2")
        ≡ Err length_mismatch }
{}

/// The first true flag of each segment, whose place counts from the start of the segment, and sums that 32 bits do not hold.
pub fn of_each_segment()
    ensures first_true { each_of first_true_of (bools "F T F T T") segments ≡ Ok (ints "1 -1 1") }
    ensures none_true { each_of first_true_of (bools "F F F F F") segments ≡ Ok (ints "-1 -1 -1") }
    ensures flags_short { each_of first_true_of (bools "T T T T") segments ≡ Err length_mismatch }
    ensures sums { each_of total_of (ints "2147483647 2147483647 -2147483648 -1 5") segments
        ≡ Ok (ints "4294967294 0 -2147483644") }
    ensures no_segments { each_of total_of [] [] ≡ Ok [] }
{}
