//! Worked values of scans. Unless others are named the segments have 2, 0 and 3 elements.

ghost use Rattle.std.specs.Prelude.{◌≡◌, [], ◌∷◌};
ghost use Rattle.cvl_base.specs.declared.families.BoolBinary.TheVariants as truth;
ghost use Rattle.cvl_base.specs.declared.families.IntMonoid.TheVariants.{Add, Mul, Min, Max, And, Ior, Xor};
ghost use Rattle.cvl_base.specs.Nests.{nest};
ghost use Rattle.cvl_base.specs.Scans.{bool_scan_of, int_scan_of};
ghost use Rattle.worked_values.specs.Segmented.{bool_seg_scan_of, int_seg_scan_of};
ghost use Rattle.worked_values.specs.Written.{bools, ints, length_mismatch, lengths, segments};

/// At each place the join of the integers before it, without its own: the first place has the operator's identity, and sums and
/// products wrap.
pub fn scan()
    ensures sums { int_scan_of Add (ints "3 1 7 0 4") ≡ ints "0 3 4 11 11" }
    ensures sums_wrapped { int_scan_of Add (ints "2147483647 1 1") ≡ ints "0 2147483647 -2147483648" }
    ensures products { int_scan_of Mul (ints "3 -2 5") ≡ ints "1 3 -6" }
    ensures products_wrapped { int_scan_of Mul (ints "2147483647 2 3") ≡ ints "1 2147483647 -2" }
    ensures least { int_scan_of Min (ints "4 -1 3 -5") ≡ ints "2147483647 4 -1 -1" }
    ensures greatest { int_scan_of Max (ints "4 -1 9") ≡ ints "-2147483648 4 4" }
    ensures common_bits { int_scan_of And (ints "-4 6 12") ≡ ints "-1 -4 4" }
    ensures bits_of_any { int_scan_of Ior (ints "1 4 -8") ≡ ints "0 1 5" }
    ensures bits_of_an_odd_number { int_scan_of Xor (ints "6 3 -1") ≡ ints "0 6 5" }
    ensures nothing { int_scan_of Add [] ≡ [] }
    ensures sum_of_one { int_scan_of Add (ints "7") ≡ ints "0" }
    ensures product_of_one { int_scan_of Mul (ints "7") ≡ ints "1" }
    ensures least_of_one { int_scan_of Min (ints "7") ≡ ints "2147483647" }
    ensures greatest_of_one { int_scan_of Max (ints "7") ≡ ints "-2147483648" }
    ensures common_bits_of_one { int_scan_of And (ints "7") ≡ ints "-1" }
    ensures bits_of_any_of_one { int_scan_of Ior (ints "7") ≡ ints "0" }
    ensures bits_of_an_odd_number_of_one { int_scan_of Xor (ints "7") ≡ ints "0" }
{}

/// A scan starts again with the operator's identity at each segment and is cut as its vector, which is as long as its
/// segments together.
pub fn segmented_scan()
    ensures sums_with_empty_segments { int_seg_scan_of Add (ints "5 1 7 7 1") (lengths "0 2 0 3 0") ≡ Ok (ints "0 5 0 7 14") }
    ensures sums_nested { nest (lengths "0 2 0 3 0") (ints "0 5 0 7 14") ≡ Ok ([] ∷ ints "0 5" ∷ [] ∷ ints "0 7 14" ∷ [] ∷ []) }
    ensures sums_of_two_segments { int_seg_scan_of Add (ints "1 2 3 4 5") (lengths "2 3") ≡ Ok (ints "0 1 0 3 7") }
    ensures sums_of_no_segments { int_seg_scan_of Add [] [] ≡ Ok [] }
    ensures sums_wrapped { int_seg_scan_of Add (ints "2147483647 1 1 5 6") (lengths "3 0 2")
        ≡ Ok (ints "0 2147483647 -2147483648 0 5") }
    ensures products { int_seg_scan_of Mul (ints "2 3 4 5 6") segments ≡ Ok (ints "1 2 1 4 20") }
    ensures products_wrapped { int_seg_scan_of Mul (ints "2147483647 2 3 5 6") (lengths "3 0 2")
        ≡ Ok (ints "1 2147483647 -2 1 5") }
    ensures least { int_seg_scan_of Min (ints "4 -1 3 9 2") segments ≡ Ok (ints "2147483647 4 2147483647 3 3") }
    ensures greatest { int_seg_scan_of Max (ints "4 -1 3 9 2") segments ≡ Ok (ints "-2147483648 4 -2147483648 3 9") }
    ensures common_bits { int_seg_scan_of And (ints "6 3 -4 6 12") segments ≡ Ok (ints "-1 6 -1 -4 4") }
    ensures bits_of_any { int_seg_scan_of Ior (ints "6 3 1 4 -8") segments ≡ Ok (ints "0 6 0 1 5") }
    ensures bits_of_an_odd_number { int_seg_scan_of Xor (ints "6 3 6 3 -1") segments ≡ Ok (ints "0 6 0 6 5") }
    ensures shorter_than_segments { int_seg_scan_of Add (ints "1 2 3 4") segments ≡ Err length_mismatch }
    ensures longer_than_segments { int_seg_scan_of Max (ints "1 2 3 4 5 6") segments ≡ Err length_mismatch }
    ensures nothing_for_a_segment { int_seg_scan_of Add [] (lengths "1") ≡ Err length_mismatch }
    ensures element_for_no_segment { int_seg_scan_of Add (ints "1") [] ≡ Err length_mismatch }
{}

/// Whether all before each are true, whether any is, and whether an odd number is, in a vector or in each segment.
pub fn bool_scan()
    ensures all { bool_scan_of truth.And (bools "T F T") ≡ bools "T T F" }
    ensures any { bool_scan_of truth.Ior (bools "F T F") ≡ bools "F F T" }
    ensures odd { bool_scan_of truth.Xor (bools "T F T T") ≡ bools "F T T F" }
    ensures nothing { bool_scan_of truth.And [] ≡ [] }
    ensures all_of_one { bool_scan_of truth.And (bools "F") ≡ bools "T" }
    ensures any_of_one { bool_scan_of truth.Ior (bools "T") ≡ bools "F" }
    ensures odd_of_one { bool_scan_of truth.Xor (bools "T") ≡ bools "F" }
    ensures all_in_segments { bool_seg_scan_of truth.And (bools "T F T F T") segments ≡ Ok (bools "T T T T F") }
    ensures any_in_segments { bool_seg_scan_of truth.Ior (bools "T F F T F") segments ≡ Ok (bools "F T F F T") }
    ensures any_in_the_last_segment { bool_seg_scan_of truth.Ior (bools "F T F T F") segments ≡ Ok (bools "F F F F T") }
    ensures odd_in_segments { bool_seg_scan_of truth.Xor (bools "T T T T T") segments ≡ Ok (bools "F T F T F") }
    ensures shorter_than_segments { bool_seg_scan_of truth.And (bools "T F T T") segments ≡ Err length_mismatch }
    ensures longer_than_segments { bool_seg_scan_of truth.Ior (bools "T F T T F T") segments ≡ Err length_mismatch }
{}
