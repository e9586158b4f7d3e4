//! Worked values of first senders. Unless others are named the segments of the index have 2, 0 and 3 elements, and those of the
//! result 2, 1 and 4.

ghost use Rattle.std.specs.Prelude.{◌≡◌, [], Ok, Err};
ghost use Rattle.first_senders.specs.FirstSenders.{first_senders_of, seg_first_senders_of, seg_select_first_senders_of};
ghost use Rattle.first_senders.specs.FirstSenders.{select_first_senders_of};
ghost use Rattle.worked_values.specs.Written.{bools, ints, length_mismatch, lengths, out_of_range, segments};

/// If several places name one place of the result, the first wins, among all or those whose flag is true; in a segment both the
/// index and the sender count from the start of their segments, and the first bad place of the vector is reported.
pub fn first_of_several()
    ensures one_of_two { first_senders_of (ints "2 0 2 3") 4 ≡ Ok (ints "1 -1 0 3") }
    ensures none { first_senders_of [] 2 ≡ Ok (ints "-1 -1") }
    ensures no_places { first_senders_of [] 0 ≡ Ok [] }
    ensures past_the_end { first_senders_of (ints "0 3 4") 3 ≡ Err (out_of_range 1) }
    ensures below { first_senders_of (ints "0 1 -1") 2 ≡ Err (out_of_range 2) }
    ensures first_flagged { select_first_senders_of (ints "2 0 2 9") (bools "F T T F") 3 ≡ Ok (ints "1 -1 2") }
    ensures flagged_outside { select_first_senders_of (ints "9 2 -1") (bools "F T T") 3 ≡ Err (out_of_range 2) }
    ensures flags_short { select_first_senders_of (ints "0 9") (bools "T") 1 ≡ Err length_mismatch }
    ensures in_segments { seg_first_senders_of (ints "1 1 0 3 0") segments (lengths "2 1 4") ≡ Ok (ints "-1 0 -1 0 -1 -1 1") }
    ensures first_flagged_in_segments { seg_select_first_senders_of (ints "1 1 9 3 0") (bools "F T F T T") (lengths "2 0 3")
        (lengths "2 1 4") ≡ Ok (ints "-1 1 -1 2 -1 -1 1") }
    ensures outside_its_segment { seg_first_senders_of (ints "1 2 0 9 0") segments (lengths "2 1 4") ≡ Err (out_of_range 1) }
    ensures outside_a_later_one { seg_first_senders_of (ints "1 1 0 4 9") segments (lengths "2 1 4") ≡ Err (out_of_range 3) }
    ensures other_segments { seg_first_senders_of (ints "9") (lengths "1") (lengths "1 1") ≡ Err length_mismatch }
    ensures index_short { seg_first_senders_of (ints "9 9 9 9") segments (lengths "2 1 4") ≡ Err length_mismatch }
{}
