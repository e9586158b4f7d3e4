//! Worked values of the elementwise calls.

ghost use Rattle.std.specs.Prelude.{◌≡◌, ℤ, []};
ghost use Rattle.cvl_base.specs.declared.families.BoolBinary.TheVariants as truth;
ghost use Rattle.cvl_base.specs.declared.families.Comparison.TheVariants.{Greater, Less, AtLeast, AtMost, Equal, Unequal};
ghost use Rattle.cvl_base.specs.declared.families.IntBinary.TheVariants.{Monoid, Sub, Div, Mod, Lsh, Rsh};
ghost use Rattle.cvl_base.specs.declared.families.IntMonoid.TheVariants.{Add, Mul, Min, Max, And, Ior, Xor};
ghost use Rattle.cvl_base.specs.declared.families.Unary.TheVariants.{Not, Copy};
ghost use Rattle.cvl_base.specs.declared.fault.FaultNo.TheVariants as no;
ghost use Rattle.cvl_base.specs.Elementwise.{bools1_of, bools2_of, bools_from_ints, choose_of, compare_of, ints1_of, ints2_of};
ghost use Rattle.cvl_base.specs.Elementwise.{ints_from_bools};
ghost use Rattle.cvl_base.specs.Faults.{fault_at};
ghost use Rattle.worked_values.specs.Written.{bools, ints, length_mismatch};

/// An operator on two integer vectors: values wrap past either end, a quotient is truncated toward zero, and the fault is the
/// first place with a divisor of 0 or a shift out of range, but vectors of different lengths come before it.
pub fn ints2()
    ensures sums { ints2_of (Monoid Add) (ints "3 1 2147483647") (ints "1 -2 1") ≡ Ok (ints "4 -1 -2147483648") }
    ensures differences { ints2_of Sub (ints "3 -2147483648") (ints "5 1") ≡ Ok (ints "-2 2147483647") }
    ensures products { ints2_of (Monoid Mul) (ints "65536 -3") (ints "65536 5") ≡ Ok (ints "0 -15") }
    ensures quotients { ints2_of Div (ints "-7 -2147483648") (ints "2 -1") ≡ Ok (ints "-3 -2147483648") }
    ensures remainders { ints2_of Mod (ints "-7 -2147483648") (ints "2 -1") ≡ Ok (ints "-1 0") }
    ensures remainders_with_the_sign_of_the_dividend { ints2_of Mod (ints "7 -7") (ints "-2 -2") ≡ Ok (ints "1 -1") }
    ensures lesser { ints2_of (Monoid Min) (ints "3 -5") (ints "2 1") ≡ Ok (ints "2 -5") }
    ensures greater { ints2_of (Monoid Max) (ints "3 -5") (ints "2 1") ≡ Ok (ints "3 1") }
    ensures left_shifts_drop_high_bits { ints2_of Lsh (ints "1 3 -1") (ints "31 31 1") ≡ Ok (ints "-2147483648 -2147483648 -2") }
    ensures right_shifts_copy_the_sign { ints2_of Rsh (ints "-7 7") (ints "1 1") ≡ Ok (ints "-4 3") }
    ensures common_bits { ints2_of (Monoid And) (ints "-4") (ints "6") ≡ Ok (ints "4") }
    ensures bits_of_either { ints2_of (Monoid Ior) (ints "-4") (ints "6") ≡ Ok (ints "-2") }
    ensures bits_of_one { ints2_of (Monoid Xor) (ints "-4") (ints "6") ≡ Ok (ints "-6") }
    ensures first_zero_divisor { ints2_of Div (ints "8 6 4 2") (ints "2 0 0 1") ≡ Err (fault_at no.DivideByZero 1) }
    ensures first_zero_modulus { ints2_of Mod (ints "8 6 4") (ints "3 5 0") ≡ Err (fault_at no.DivideByZero 2) }
    ensures left_shift_by_32 { ints2_of Lsh (ints "1 1") (ints "0 32") ≡ Err (fault_at no.ShiftOutOfRange 1) }
    ensures right_shift_by_32 { ints2_of Rsh (ints "1 1") (ints "31 32") ≡ Err (fault_at no.ShiftOutOfRange 1) }
    ensures left_shift_by_a_negative { ints2_of Lsh (ints "5 5 5") (ints "0 -1 40") ≡ Err (fault_at no.ShiftOutOfRange 1) }
    ensures right_shift_by_a_negative { ints2_of Rsh (ints "5 5 5") (ints "0 -1 40") ≡ Err (fault_at no.ShiftOutOfRange 1) }
    ensures lengths_before_divisors { ints2_of Div (ints "1 2") (ints "0") ≡ Err length_mismatch }
    ensures lengths_before_moduli { ints2_of Mod (ints "1") (ints "0 0") ≡ Err length_mismatch }
    ensures lengths_before_left_shifts { ints2_of Lsh (ints "1 2") (ints "32") ≡ Err length_mismatch }
    ensures lengths_before_right_shifts { ints2_of Rsh (ints "1 2") (ints "32") ≡ Err length_mismatch }
    ensures sums_mismatched { ints2_of (Monoid Add) (ints "1 2") (ints "1") ≡ Err length_mismatch }
    ensures differences_mismatched { ints2_of Sub (ints "1") (ints "1 2") ≡ Err length_mismatch }
    ensures products_mismatched { ints2_of (Monoid Mul) (ints "1 2") [] ≡ Err length_mismatch }
    ensures lesser_mismatched { ints2_of (Monoid Min) (ints "1 2") (ints "1") ≡ Err length_mismatch }
    ensures greater_mismatched { ints2_of (Monoid Max) (ints "1") (ints "1 2") ≡ Err length_mismatch }
    ensures common_bits_mismatched { ints2_of (Monoid And) (ints "1 2") (ints "1") ≡ Err length_mismatch }
    ensures bits_of_either_mismatched { ints2_of (Monoid Ior) (ints "1") (ints "1 2") ≡ Err length_mismatch }
    ensures bits_of_one_mismatched { ints2_of (Monoid Xor) [] (ints "1") ≡ Err length_mismatch }
    ensures sums_past_the_bottom { ints2_of (Monoid Add) (ints "-2147483648") (ints "-1") ≡ Ok (ints "2147483647") }
    ensures opposite_of_the_least { ints2_of (Monoid Mul) (ints "-2147483648") (ints "-1") ≡ Ok (ints "-2147483648") }
    ensures quotients_toward_zero { ints2_of Div (ints "-7 7 -7 -1 7") (ints "2 -2 -2 2 2") ≡ Ok (ints "-3 -3 3 0 3") }
    ensures remainders_of_either_sign { ints2_of Mod (ints "-7 7 -7 -1 7") (ints "2 -2 -2 2 2") ≡ Ok (ints "-1 1 -1 -1 1") }
    ensures right_shifts_round_down { ints2_of Rsh (ints "-8 -7 -1 -1") (ints "1 2 1 31") ≡ Ok (ints "-4 -2 -1 -1") }
    ensures right_shifts_of_the_ends { ints2_of Rsh (ints "-2147483648 -2147483648 2147483647") (ints "31 1 31")
        ≡ Ok (ints "-1 -1073741824 0") }
    ensures left_shifts_by_no_place { ints2_of Lsh (ints "-7 7") (ints "0 0") ≡ Ok (ints "-7 7") }
    ensures right_shifts_by_no_place { ints2_of Rsh (ints "-7 7") (ints "0 0") ≡ Ok (ints "-7 7") }
    ensures sums_of_nothing { ints2_of (Monoid Add) [] [] ≡ Ok [] }
    ensures quotients_of_nothing { ints2_of Div [] [] ≡ Ok [] }
{}

/// An operator on one integer vector: the bits inverted, or a copy.
pub fn ints1()
    ensures bits_inverted { ints1_of Not (ints "1 2 3") ≡ ints "-2 -3 -4" }
    ensures copied { ints1_of Copy (ints "3 -1") ≡ ints "3 -1" }
    ensures bits_of_the_ends_inverted { ints1_of Not (ints "-1 0 -2147483648") ≡ ints "0 -1 2147483647" }
{}

/// Each comparison of -1, 2 and 3 with 2, one of 5 and 0 with 1, and those of vectors of different lengths.
pub fn compare()
    ensures greater { compare_of Greater (ints "-1 2 3") (ints "2 2 2") ≡ Ok (bools "F F T") }
    ensures less { compare_of Less (ints "-1 2 3") (ints "2 2 2") ≡ Ok (bools "T F F") }
    ensures at_least { compare_of AtLeast (ints "-1 2 3") (ints "2 2 2") ≡ Ok (bools "F T T") }
    ensures at_most { compare_of AtMost (ints "-1 2 3") (ints "2 2 2") ≡ Ok (bools "T T F") }
    ensures equal { compare_of Equal (ints "-1 2 3") (ints "2 2 2") ≡ Ok (bools "F T F") }
    ensures unequal { compare_of Unequal (ints "-1 2 3") (ints "2 2 2") ≡ Ok (bools "T F T") }
    ensures greater_than_one { compare_of Greater (ints "5 0 5") (ints "1 1 1") ≡ Ok (bools "T F T") }
    ensures greater_mismatched { compare_of Greater (ints "1 2") (ints "1") ≡ Err length_mismatch }
    ensures less_mismatched { compare_of Less (ints "1") (ints "1 2") ≡ Err length_mismatch }
    ensures at_least_mismatched { compare_of AtLeast (ints "1 2") (ints "1") ≡ Err length_mismatch }
    ensures at_most_mismatched { compare_of AtMost (ints "1") (ints "1 2") ≡ Err length_mismatch }
    ensures equal_mismatched { compare_of Equal (ints "1 2") (ints "1") ≡ Err length_mismatch }
    ensures unequal_mismatched { compare_of Unequal (ints "1") (ints "1 2") ≡ Err length_mismatch }
    ensures greater_at_the_ends { compare_of Greater (ints "-2147483648 2147483647") (ints "2147483647 -2147483648")
        ≡ Ok (bools "F T") }
    ensures less_at_the_ends { compare_of Less (ints "-2147483648 2147483647") (ints "2147483647 -2147483648")
        ≡ Ok (bools "T F") }
{}

/// An operator on two boolean vectors of equal length: whether both are true, either, or only one.
pub fn bools2()
    ensures both { bools2_of truth.And (bools "T F T") (bools "F T F") ≡ Ok (bools "F F F") }
    ensures either { bools2_of truth.Ior (bools "T T F") (bools "T F F") ≡ Ok (bools "T T F") }
    ensures only_one { bools2_of truth.Xor (bools "T T F") (bools "T F F") ≡ Ok (bools "F T F") }
    ensures both_mismatched { bools2_of truth.And (bools "T F") (bools "T") ≡ Err length_mismatch }
    ensures either_mismatched { bools2_of truth.Ior (bools "T") (bools "T F") ≡ Err length_mismatch }
    ensures only_one_mismatched { bools2_of truth.Xor [] (bools "T") ≡ Err length_mismatch }
{}

/// An operator on one boolean vector: the flags inverted, or a copy.
pub fn bools1()
    ensures inverted { bools1_of Not (bools "T F T") ≡ bools "F T F" }
    ensures copied { bools1_of Copy (bools "T F T") ≡ bools "T F T" }
{}

/// The first vector's element if the flag is true, else the second's, of three vectors of equal length.
pub fn choose()
    ensures integers { choose_of (bools "T F T") (ints "1 2 3") (ints "4 5 6") ≡ Ok (ints "1 5 3") }
    ensures booleans { choose_of (bools "T F T F") (bools "T T F F") (bools "F F T T") ≡ Ok (bools "T F F T") }
    ensures first_integers_short { choose_of (bools "T F") (ints "1") (ints "4 5") ≡ Err length_mismatch }
    ensures second_integers_short { choose_of (bools "T F") (ints "1 2") (ints "4") ≡ Err length_mismatch }
    ensures second_booleans_short { choose_of (bools "T F") (bools "T T") (bools "F") ≡ Err length_mismatch }
    ensures flags_short { choose_of (bools "T") (ints "1 2") (ints "4 5") ≡ Err length_mismatch }
    ensures nothing { choose_of {X = ℤ} [] [] [] ≡ Ok [] }
{}

/// True is 1, and false is 0.
pub fn int_from_bool()
    ensures integers { ints_from_bools (bools "F T F") ≡ ints "0 1 0" }
{}

/// Each number but 0 is true.
pub fn bool_from_int()
    ensures booleans { bools_from_ints (ints "0 -3 0") ≡ bools "F T F" }
{}
