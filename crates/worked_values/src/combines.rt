//! Worked values of combining permutes. Most have the index `2 0 2 3 2`, so that three elements are sent to place 2, one to each
//! of the places 0 and 3, and none to place 1.

ghost use Rattle.std.specs.Prelude.{◌≡◌, [], Ok, Err};
ghost use Rattle.std.specs.List.{zip};
ghost use Rattle.combining_permutes.specs.CombiningPermutes.{combine_of, combined, place_counts, place_counts_of};
ghost use Rattle.combining_permutes.specs.CombiningPermutes.{seg_combine_of, seg_place_counts_of};
ghost use Rattle.cvl_base.specs.Integers.{difference_of};
ghost use Rattle.cvl_base.specs.Scans.{bool_join_of, int_join_of};
ghost use Rattle.cvl_base.specs.declared.families.BoolBinary.TheVariants as truth;
ghost use Rattle.cvl_base.specs.declared.families.IntMonoid.TheVariants.{Add, And, Ior, Max, Min, Mul, Xor};
ghost use Rattle.worked_values.specs.Written.{bools, ints, length_mismatch, lengths, out_of_range, segments};

/// What stands at a place, joined with all that are sent there: what stood there on the left, the others in their order.
pub fn combine()
    ensures sums { combine_of (int_join_of Add) (ints "1 2 3 4 5") (ints "2 0 2 3 2") (ints "10 20 30 40")
        ≡ Ok (ints "12 20 39 44") }
    ensures products { combine_of (int_join_of Mul) (ints "3 5 -4 7 2") (ints "2 0 2 3 2") (ints "1 1 2 -1")
        ≡ Ok (ints "5 1 -48 -7") }
    ensures least { combine_of (int_join_of Min) (ints "9 3 5 8 6") (ints "2 0 2 3 2") (ints "7 7 7 7") ≡ Ok (ints "3 7 5 7") }
    ensures greatest { combine_of (int_join_of Max) (ints "9 3 5 8 6") (ints "2 0 2 3 2") (ints "7 7 7 7") ≡ Ok (ints "7 7 9 8") }
    ensures common_bits { combine_of (int_join_of And) (ints "7 5 -2 10 13") (ints "2 0 2 3 2") (ints "-1 6 15 12")
        ≡ Ok (ints "5 6 4 8") }
    ensures bits_of_any { combine_of (int_join_of Ior) (ints "1 2 4 9 16") (ints "2 0 2 3 2") (ints "0 1 8 0")
        ≡ Ok (ints "2 1 29 9") }
    ensures bits_of_an_odd_number { combine_of (int_join_of Xor) (ints "3 5 3 1 8") (ints "2 0 2 3 2") (ints "5 0 6 1")
        ≡ Ok (ints "0 0 14 0") }
    ensures wrapped { combine_of (int_join_of Add) (ints "1 1") (ints "0 0") (ints "2147483647") ≡ Ok (ints "-2147483647") }
    ensures what_stood_on_the_left { combine_of difference_of (ints "1 2 3") (ints "0 1 0") (ints "10 20") ≡ Ok (ints "6 18") }
    ensures last_of_several { combine_of (λ a b. b) (ints "1 2 3") (ints "0 1 0") (ints "10 20") ≡ Ok (ints "3 2") }
    ensures nothing_sent { combine_of (int_join_of Add) [] [] (ints "4 5") ≡ Ok (ints "4 5") }
    ensures no_places { combine_of (int_join_of Add) [] [] [] ≡ Ok [] }
    ensures past_the_end { combine_of (int_join_of Add) (ints "1 2 3") (ints "0 2 9") (ints "0 0") ≡ Err (out_of_range 1) }
    ensures below { combine_of (int_join_of Max) (ints "1 2") (ints "1 -1") (ints "0 0") ≡ Err (out_of_range 1) }
    ensures index_short { combine_of (int_join_of Add) (ints "1 2") (ints "9") (ints "0") ≡ Err length_mismatch }
    ensures all { combine_of (bool_join_of truth.And) (bools "T F T F") (ints "0 0 1 2") (bools "T T T") ≡ Ok (bools "F T F") }
    ensures any { combine_of (bool_join_of truth.Ior) (bools "T F F F") (ints "0 0 1 2") (bools "F F T") ≡ Ok (bools "T F T") }
    ensures odd { combine_of (bool_join_of truth.Xor) (bools "T T T F") (ints "0 1 2 2") (bools "T F F") ≡ Ok (bools "F T T") }
{}

/// The same in each segment: those of the index have 2, 0 and 3 elements, and those of the room 2, 1 and 4.
pub fn combine_segments()
    ensures sums { seg_combine_of (int_join_of Add) (ints "1 2 3 4 5") (ints "1 1 0 3 0") segments (lengths "2 1 4")
        (ints "10 20 30 40 50 60 70") ≡ Ok (ints "10 23 30 48 50 60 74") }
    ensures outside_its_segment { seg_combine_of (int_join_of Add) (ints "1 2 3 4 5") (ints "1 2 0 9 0") segments
        (lengths "2 1 4") (ints "0 0 0 0 0 0 0") ≡ Err (out_of_range 1) }
    ensures outside_a_later_one { seg_combine_of (int_join_of Add) (ints "1 2 3 4 5") (ints "1 1 0 4 9") segments
        (lengths "2 1 4") (ints "0 0 0 0 0 0 0") ≡ Err (out_of_range 3) }
    ensures room_short { seg_combine_of (int_join_of Add) (ints "1 2 3 4 5") (ints "1 2 0 9 0") segments (lengths "2 1 4")
        (ints "0 0 0 0 0 0") ≡ Err length_mismatch }
    ensures other_segments { seg_combine_of (int_join_of Add) (ints "1") (ints "9") (lengths "1") (lengths "1 1") (ints "0 0")
        ≡ Err length_mismatch }
    ensures source_short { seg_combine_of (int_join_of Add) (ints "1") (ints "9 9") (lengths "2") (lengths "1") (ints "0")
        ≡ Err length_mismatch }
{}

/// How many indices name each place, of all or of the same segment.
pub fn counts_of_places()
    ensures of_several { place_counts_of (ints "2 0 2 3") 4 ≡ Ok (ints "1 0 2 1") }
    ensures none { place_counts_of [] 2 ≡ Ok (ints "0 0") }
    ensures no_places { place_counts_of [] 0 ≡ Ok [] }
    ensures past_the_end { place_counts_of (ints "0 3 4") 3 ≡ Err (out_of_range 1) }
    ensures below { place_counts_of (ints "0 1 -1") 2 ≡ Err (out_of_range 2) }
    ensures in_segments { seg_place_counts_of (ints "1 1 0 3 0") segments (lengths "2 1 4") ≡ Ok (ints "0 2 0 2 0 0 1") }
    ensures outside_its_segment { seg_place_counts_of (ints "1 2 0 9 0") segments (lengths "2 1 4") ≡ Err (out_of_range 1) }
    ensures other_segments { seg_place_counts_of (ints "9") (lengths "1") (lengths "1 1") ≡ Err length_mismatch }
    ensures index_short { seg_place_counts_of (ints "9 9 9 9") segments (lengths "2 1 4") ≡ Err length_mismatch }
{}

/// A range of the room, from place 1 or 2 on: what is sent elsewhere does not count.
pub fn ranges_of_rooms()
    ensures sums { combined (int_join_of Add) (zip (ints "2 0 2 3 2") (ints "1 2 3 4 5")) 1 (ints "20 30") ≡ ints "20 39" }
    ensures last_place { combined (int_join_of Add) (zip (ints "2 0 2 3 2") (ints "1 2 3 4 5")) 3 (ints "40") ≡ ints "44" }
    ensures counts { place_counts (ints "2 0 2 3 2") 2 2 ≡ ints "3 1" }
    ensures no_places { place_counts (ints "2 0 2 3 2") 2 0 ≡ [] }
{}
