//! Laws of calls place by place, which may lack a value at some places, as functions that take and give nothing and whose
//! contracts are the laws.

ghost use Rattle.std.specs.Prelude.{◌≡◌, ◌↔◌, ◌+◌, ℕ, ℤ, Bool, Option, List, ◌∷◌, ◌++◌, length, map};
ghost use Rattle.call_laws.specs.InParts.{in_two};
ghost use Rattle.call_table.specs.declared.families.BoolBinary.{BoolBinary};
ghost use Rattle.call_table.specs.declared.families.Comparison.{Comparison};
ghost use Rattle.call_table.specs.declared.families.IntBinary.{IntBinary};
ghost use Rattle.call_table.specs.declared.families.Unary.{Unary};
ghost use Rattle.cvl_base.specs.declared.fault.FaultNo.{FaultNo};
ghost use Rattle.cvl_base.specs.Elementwise.{bools1_of, bools2_of, bools_from_ints, choose_of, compare_of, ints1_of, ints2_of};
ghost use Rattle.cvl_base.specs.Elementwise.{ints_from_bools, values_from};
ghost use Rattle.cvl_base.specs.Faults.{fault_at};

/// If every place has a value, the call gives these values; else its fault is that of the first place without one.
pub fn least_fault_law<T>()
    ensures values { (number : FaultNo) (place : ℕ) (values : List (Option T)) (results : List T) →
        (values_from number place values ≡ Ok results) ↔ (values ≡ map (λ result. Some result) results) }
    ensures first_missing { (number : FaultNo) (place : ℕ) (results : List T) (others : List (Option T)) →
        values_from number place (map (λ result. Some result) results ++ None ∷ others)
        ≡ Err (fault_at number (place + length results)) }
{}

/// Calls place by place on vectors that are all cut in two at the same place are the calls on the two parts: the fault is that of
/// the first part, else that of the second, its place moved by the first part's length.
pub fn elementwise_in_parts<T>()
    ensures numbers { (operator : IntBinary) (xs ys more others : List ℤ) → length xs ≡ length ys → length more ≡ length others →
        ints2_of operator (xs ++ more) (ys ++ others)
        ≡ in_two (length xs) (ints2_of operator xs ys) (ints2_of operator more others) }
    ensures comparisons { (comparison : Comparison) (xs ys more others : List ℤ) → length xs ≡ length ys
        → length more ≡ length others →
        compare_of comparison (xs ++ more) (ys ++ others)
        ≡ in_two (length xs) (compare_of comparison xs ys) (compare_of comparison more others) }
    ensures truth_values { (operator : BoolBinary) (xs ys more others : List Bool) → length xs ≡ length ys
        → length more ≡ length others →
        bools2_of operator (xs ++ more) (ys ++ others)
        ≡ in_two (length xs) (bools2_of operator xs ys) (bools2_of operator more others) }
    ensures choices { (flags more_flags : List Bool) (xs ys more others : List T) → length flags ≡ length xs
        → length flags ≡ length ys →
        length more_flags ≡ length more → length more_flags ≡ length others →
        choose_of (flags ++ more_flags) (xs ++ more) (ys ++ others)
        ≡ in_two (length flags) (choose_of flags xs ys) (choose_of more_flags more others) }
    ensures one_number { (operator : Unary) (xs more : List ℤ)
        → ints1_of operator (xs ++ more) ≡ ints1_of operator xs ++ ints1_of operator more }
    ensures one_truth_value { (operator : Unary) (xs more : List Bool)
        → bools1_of operator (xs ++ more) ≡ bools1_of operator xs ++ bools1_of operator more }
    ensures to_numbers { (xs more : List Bool) → ints_from_bools (xs ++ more) ≡ ints_from_bools xs ++ ints_from_bools more }
    ensures to_truth_values { (xs more : List ℤ) → bools_from_ints (xs ++ more) ≡ bools_from_ints xs ++ bools_from_ints more }
{}
