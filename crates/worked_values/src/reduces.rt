//! Worked values of reduces. Unless others are named the segments have 2, 0 and 3 elements.

ghost use Rattle.std.specs.Prelude.{◌≡◌, negsuc, pos, true, false, []};
ghost use Rattle.cvl_base.specs.declared.families.BoolBinary.TheVariants as truth;
ghost use Rattle.cvl_base.specs.declared.families.IntMonoid.TheVariants.{Add, Mul, Min, Max, And, Ior, Xor};
ghost use Rattle.cvl_base.specs.Scans.{bool_reduce_of, int_reduce_of};
ghost use Rattle.worked_values.specs.Segmented.{bool_seg_reduce_of, int_seg_reduce_of};
ghost use Rattle.worked_values.specs.Written.{bools, ints, length_mismatch, lengths, segments};

/// All integers joined: sums and products wrap, and the reduce of nothing is the operator's identity.
pub fn reduce()
    ensures sum { int_reduce_of Add (ints "3 1 7 0 4") ≡ pos 15 }
    ensures sum_wrapped { int_reduce_of Add (ints "2147483647 1 1") ≡ negsuc 2147483646 }
    ensures product { int_reduce_of Mul (ints "3 -2 5") ≡ negsuc 29 }
    ensures product_wrapped { int_reduce_of Mul (ints "2147483647 2 3") ≡ negsuc 5 }
    ensures least { int_reduce_of Min (ints "4 -1 3 -5") ≡ negsuc 4 }
    ensures greatest { int_reduce_of Max (ints "4 -1 9") ≡ pos 9 }
    ensures common_bits { int_reduce_of And (ints "-4 6 12") ≡ pos 4 }
    ensures bits_of_any { int_reduce_of Ior (ints "1 4 -8") ≡ negsuc 2 }
    ensures bits_of_an_odd_number { int_reduce_of Xor (ints "6 3 -1") ≡ negsuc 5 }
    ensures sum_of_nothing { int_reduce_of Add [] ≡ pos 0 }
    ensures product_of_nothing { int_reduce_of Mul [] ≡ pos 1 }
    ensures least_of_nothing { int_reduce_of Min [] ≡ pos 2147483647 }
    ensures greatest_of_nothing { int_reduce_of Max [] ≡ negsuc 2147483647 }
    ensures common_bits_of_nothing { int_reduce_of And [] ≡ negsuc 0 }
    ensures bits_of_any_of_nothing { int_reduce_of Ior [] ≡ pos 0 }
    ensures bits_of_an_odd_number_of_nothing { int_reduce_of Xor [] ≡ pos 0 }
{}

/// One result for each segment, the operator's identity for an empty one, of a vector as long as its segments together.
pub fn segmented_reduce()
    ensures sums_with_empty_segments { int_seg_reduce_of Add (ints "5 1 7 7 1") (lengths "0 2 0 3 0") ≡ Ok (ints "0 6 0 15 0") }
    ensures sums_of_two_segments { int_seg_reduce_of Add (ints "1 2 3 4 5") (lengths "2 3") ≡ Ok (ints "3 12") }
    ensures sums_of_no_segments { int_seg_reduce_of Add [] [] ≡ Ok [] }
    ensures sums_wrapped { int_seg_reduce_of Add (ints "2147483647 1 1 5 6") (lengths "3 0 2") ≡ Ok (ints "-2147483647 0 11") }
    ensures products { int_seg_reduce_of Mul (ints "2 3 4 5 6") segments ≡ Ok (ints "6 1 120") }
    ensures products_of_two_segments { int_seg_reduce_of Mul (ints "1 2 3 4 5") (lengths "2 3") ≡ Ok (ints "2 60") }
    ensures products_of_two_empty_segments { int_seg_reduce_of Mul [] (lengths "0 0") ≡ Ok (ints "1 1") }
    ensures products_wrapped { int_seg_reduce_of Mul (ints "2147483647 2 3 5 6") (lengths "3 0 2") ≡ Ok (ints "-6 1 30") }
    ensures least { int_seg_reduce_of Min (ints "4 -1 3 9 2") segments ≡ Ok (ints "-1 2147483647 2") }
    ensures greatest { int_seg_reduce_of Max (ints "4 -1 3 9 2") segments ≡ Ok (ints "4 -2147483648 9") }
    ensures common_bits { int_seg_reduce_of And (ints "6 3 -4 6 12") segments ≡ Ok (ints "2 -1 4") }
    ensures bits_of_any { int_seg_reduce_of Ior (ints "6 3 1 4 -8") segments ≡ Ok (ints "7 0 -3") }
    ensures bits_of_an_odd_number { int_seg_reduce_of Xor (ints "6 3 6 3 -1") segments ≡ Ok (ints "5 0 -6") }
    ensures shorter_than_segments { int_seg_reduce_of Add (ints "1 2 3 4") segments ≡ Err length_mismatch }
    ensures longer_than_segments { int_seg_reduce_of Min (ints "1 2 3 4 5 6") segments ≡ Err length_mismatch }
    ensures nothing_for_a_segment { int_seg_reduce_of Add [] (lengths "1") ≡ Err length_mismatch }
    ensures element_for_no_segment { int_seg_reduce_of Add (ints "1") [] ≡ Err length_mismatch }
{}

/// Whether all are true, whether any is, and whether an odd number is, of a vector or of each segment.
pub fn bool_reduce()
    ensures all { bool_reduce_of truth.And (bools "T T") ≡ true }
    ensures not_all { bool_reduce_of truth.And (bools "T F T") ≡ false }
    ensures any { bool_reduce_of truth.Ior (bools "F T F") ≡ true }
    ensures not_any { bool_reduce_of truth.Ior (bools "F F") ≡ false }
    ensures odd { bool_reduce_of truth.Xor (bools "T T T") ≡ true }
    ensures even { bool_reduce_of truth.Xor (bools "T F T") ≡ false }
    ensures all_of_nothing { bool_reduce_of truth.And [] ≡ true }
    ensures any_of_nothing { bool_reduce_of truth.Ior [] ≡ false }
    ensures odd_of_nothing { bool_reduce_of truth.Xor [] ≡ false }
    ensures all_in_segments { bool_seg_reduce_of truth.And (bools "T T T F T") segments ≡ Ok (bools "T T F") }
    ensures all_but_in_the_first_segment { bool_seg_reduce_of truth.And (bools "T F T T T") segments ≡ Ok (bools "F T T") }
    ensures any_in_segments { bool_seg_reduce_of truth.Ior (bools "F T F F F") segments ≡ Ok (bools "T F F") }
    ensures odd_in_segments { bool_seg_reduce_of truth.Xor (bools "T T T T T") segments ≡ Ok (bools "F F T") }
    ensures shorter_than_segments { bool_seg_reduce_of truth.Xor (bools "T F T T") segments ≡ Err length_mismatch }
    ensures longer_than_segments { bool_seg_reduce_of truth.And (bools "T F T T F T") segments ≡ Err length_mismatch }
{}
