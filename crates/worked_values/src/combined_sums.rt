//! Worked values of combining permutes by sums that never wrap. Most have two elements for place 0 and one for place 2, and none
//! for place 1.

ghost use Rattle.std.specs.Prelude.{◌≡◌, [], Ok, Err};
ghost use Rattle.exact_combines.specs.ExactCombines.{checked_combine_of, exact_sums_of};
ghost use Rattle.exact_combines.specs.ExactCombines.{seg_checked_combine_of, seg_exact_sums_of};
ghost use Rattle.worked_values.specs.Written.{ints, length_mismatch, lengths, out_of_range, overflow};

/// Only the sum at the end has to fit 32 bits, at each place; the fault is that of the first place, wherever its elements stand.
pub fn checked_combine()
    ensures sums { checked_combine_of (ints "1 2 3") (ints "0 2 0") (ints "10 20 30") ≡ Ok (ints "14 20 32") }
    ensures brought_back { checked_combine_of (ints "1 -1") (ints "0 0") (ints "2147483647") ≡ Ok (ints "2147483647") }
    ensures round_the_turn { checked_combine_of (ints "2147483647 2147483647 -2147483648 -2147483648") (ints "0 0 0 0") (ints "5")
        ≡ Ok (ints "3") }
    ensures first_place { checked_combine_of (ints "1 -1 1") (ints "2 1 0") (ints "2147483647 -2147483648 2147483647")
        ≡ Err (overflow 0) }
    ensures too_small { checked_combine_of (ints "-1 1") (ints "1 0") (ints "0 -2147483648 7") ≡ Err (overflow 1) }
    ensures least { checked_combine_of (ints "-2147483648") (ints "0") (ints "0") ≡ Ok (ints "-2147483648") }
    ensures nothing_sent { checked_combine_of [] [] (ints "4 5") ≡ Ok (ints "4 5") }
    ensures index_before { checked_combine_of (ints "1 1") (ints "0 3") (ints "2147483647 0") ≡ Err (out_of_range 1) }
    ensures index_short { checked_combine_of (ints "1 2") (ints "9") (ints "0") ≡ Err length_mismatch }
{}

/// By segments the fault has the place in the whole room.
pub fn checked_combine_by_segments()
    ensures sums { seg_checked_combine_of (ints "1 2 3") (ints "1 0 0") (lengths "1 0 2") (lengths "2 1 1") (ints "10 20 30 40")
        ≡ Ok (ints "10 21 30 45") }
    ensures third_segment { seg_checked_combine_of (ints "1 2 3") (ints "1 0 0") (lengths "1 0 2") (lengths "2 1 1")
        (ints "10 20 30 2147483643") ≡ Err (overflow 3) }
    ensures index_before { seg_checked_combine_of (ints "1 2") (ints "0 1") (lengths "1 1") (lengths "1 1") (ints "2147483647 0")
        ≡ Err (out_of_range 1) }
    ensures other_segments { seg_checked_combine_of (ints "1") (ints "9") (lengths "1") (lengths "1 1") (ints "0 0")
        ≡ Err length_mismatch }
{}

/// Sums of 64 bits are exact. One that stood outside of 63 bits is a fault, before the indices are looked at.
pub fn exact_sums()
    ensures sums { exact_sums_of (ints "2147483647 2147483647 -5") (ints "0 0 2") (ints "1 20 4000000000")
        ≡ Ok (ints "4294967295 20 3999999995") }
    ensures greatest { exact_sums_of (ints "1") (ints "0") (ints "4611686018427387903") ≡ Ok (ints "4611686018427387904") }
    ensures too_great { exact_sums_of [] [] (ints "0 4611686018427387904") ≡ Err (overflow 1) }
    ensures least { exact_sums_of (ints "-1") (ints "0") (ints "-4611686018427387904") ≡ Ok (ints "-4611686018427387905") }
    ensures too_small { exact_sums_of [] [] (ints "-4611686018427387905") ≡ Err (overflow 0) }
    ensures room_before_index { exact_sums_of (ints "1") (ints "9") (ints "4611686018427387904") ≡ Err (overflow 0) }
    ensures outside { exact_sums_of (ints "1 2") (ints "0 1") (ints "7") ≡ Err (out_of_range 1) }
    ensures index_short { exact_sums_of (ints "1 2") (ints "9") (ints "4611686018427387904") ≡ Err length_mismatch }
{}

/// And so of each segment.
pub fn exact_sums_by_segments()
    ensures sums { seg_exact_sums_of (ints "2147483647 2147483647 7") (ints "1 1 0") (lengths "2 1") (lengths "2 2")
        (ints "1 2 3 4") ≡ Ok (ints "1 4294967296 10 4") }
    ensures too_great { seg_exact_sums_of (ints "1") (ints "0") (lengths "1") (lengths "2") (ints "0 4611686018427387904")
        ≡ Err (overflow 1) }
    ensures outside { seg_exact_sums_of (ints "1 2") (ints "0 1") (lengths "1 1") (lengths "1 1") (ints "0 0")
        ≡ Err (out_of_range 1) }
{}
