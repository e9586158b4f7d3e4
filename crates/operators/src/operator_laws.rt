//! Laws of the operators, each a function that takes and gives nothing and whose contract is the law.

ghost use Rattle.std.specs.Prelude.{◌≡◌, ◌≢◌, ◌+◌, ◌≤◌, ◌<◌, ◌^◌, ◌*ℤ◌, ◌++◌, fold, length, IsTrue, List, ℕ, negsuc, pos, ℤ};
ghost use Rattle.std.specs.List.{AllPass};
ghost use Rattle.operators.specs.Exact.{IsWordWrapped, exact_sum_of, total_of, wrap_word};
ghost use Rattle.operators.specs.Folds.{fold_of};
ghost use Rattle.operators.specs.Integers.{IsDivided, IsFloor, IsWrapped, floor_of, left_shift_of, quotient_of, remainder_of};
ghost use Rattle.operators.specs.Integers.{right_shift_of, wrap};
ghost use Rattle.operators.specs.ItemWords.{is_number, is_word};

/// `wrap` gives the one number that fits 32 bits and is congruent to a whole number modulo 2^32.
pub fn wrap_law()
    ensures wrapped { (x : ℤ) → IsWrapped x (wrap x) }
    ensures only { (x wrapped : ℤ) → IsWrapped x wrapped → wrapped ≡ wrap x }
{}

/// If the divisor isn't 0, the quotient, before it is wrapped, times the divisor and with the remainder is the dividend again;
/// the remainder is nearer to 0 than the divisor, and is 0 or has the dividend's sign. By 0 there is neither.
pub fn division_law()
    ensures divided { (a b : ℤ) → b ≢ pos 0 →
        (q r : ℤ) × (quotient_of a b ≡ Some (wrap q)) × (remainder_of a b ≡ Some r) × IsDivided a b q r }
    ensures no_quotient { (a : ℤ) → quotient_of a (pos 0) ≡ None }
    ensures no_remainder { (a : ℤ) → remainder_of a (pos 0) ≡ None }
{}

/// The floor of a quotient by a number above 0 is the one number whose product with the divisor is at most the dividend
/// and less than the divisor away from it.
pub fn floor_law()
    ensures floor { (a : ℤ) (n : ℕ) → 0 < n → IsFloor a n (floor_of a n) }
    ensures only { (a q : ℤ) (n : ℕ) → IsFloor a n q → q ≡ floor_of a n }
{}

/// By 0 to 31 places a left shift gives the product with that power of two, wrapped, and a right shift the floor of the
/// quotient by it. By less than 0 places, and by more than 31, there is neither.
pub fn shift_law()
    ensures left { (a : ℤ) (s : ℕ) → s < 32 → left_shift_of a (pos s) ≡ Some (wrap (a *ℤ pos (2 ^ s))) }
    ensures right { (a : ℤ) (s : ℕ) → s < 32 → (q : ℤ) × (right_shift_of a (pos s) ≡ Some q) × IsFloor a (2 ^ s) q }
    ensures no_left { (a : ℤ) (s : ℕ) → 32 ≤ s → left_shift_of a (pos s) ≡ None }
    ensures no_right { (a : ℤ) (s : ℕ) → 32 ≤ s → right_shift_of a (pos s) ≡ None }
    ensures no_left_by_less { (a : ℤ) (n : ℕ) → left_shift_of a (negsuc n) ≡ None }
    ensures no_right_by_less { (a : ℤ) (n : ℕ) → right_shift_of a (negsuc n) ≡ None }
{}

/// `wrap_word` gives the one number from -2^53 to 2^53 - 1 that is congruent to a whole number modulo 2^54.
pub fn word_wrap_law()
    ensures wrapped { (x : ℤ) → IsWordWrapped x (wrap_word x) }
    ensures only { (x wrapped : ℤ) → IsWordWrapped x wrapped → wrapped ≡ wrap_word x }
{}

/// The exact sum of at most 4,194,304 numbers of 32 bits is their sum over whole numbers, also if the fold continues from the sum
/// of those before; and that sum is an item of `Exact`.
pub fn exact_fold_law()
    ensures total { (xs : List ℤ) → length xs ≤ 4194304 → AllPass is_number xs →
        fold_of exact_sum_of (pos 0) xs ≡ total_of xs }
    ensures onward { (before xs : List ℤ) → length before + length xs ≤ 4194304 → AllPass is_number before
        → AllPass is_number xs →
        fold exact_sum_of (total_of before) xs ≡ total_of (before ++ xs) }
    ensures item { (xs : List ℤ) → length xs ≤ 4194304 → AllPass is_number xs → IsTrue (is_word (total_of xs)) }
{}
