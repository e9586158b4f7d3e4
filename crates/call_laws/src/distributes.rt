//! Laws of the calls that make a vector of a given length, as functions that take and give nothing and whose contracts
//! are the laws.

ghost use Rattle.std.specs.Prelude.{◌≡◌, ◌≤◌, ◌<◌, ◌+◌, ◌+ℤ◌, ◌*ℤ◌, ℕ, ℤ, pos, negsuc, map, replicate};
ghost use Rattle.std.specs.List.{range_with_len};
ghost use Rattle.call_laws.specs.InParts.{in_two};
ghost use Rattle.cvl_base.specs.declared.fault.FaultNo.TheVariants as no;
ghost use Rattle.cvl_base.specs.Distributes.{distribute_within, index_within, length_within};
ghost use Rattle.cvl_base.specs.Faults.{fault};
ghost use Rattle.cvl_base.specs.Integers.{wrap};

/// Whatever the limit: a count up to it gives a vector of that length, copies of a value, or the numbers in steps of a stride. A
/// greater count is `TooLong` and a negative one `NegativeLength`, without a place.
pub fn count_law<T>()
    ensures copies { (most : ℕ) (value : T) (n : ℕ) → n ≤ most → distribute_within most value (pos n) ≡ Ok (replicate n value) }
    ensures steps { (most : ℕ) (init stride : ℤ) (n : ℕ) → n ≤ most →
        index_within most init stride (pos n) ≡ Ok (map (λ k. wrap (init +ℤ pos k *ℤ stride)) (range_with_len 0 n)) }
    ensures copies_above_limit { (most : ℕ) (value : T) (n : ℕ) → most < n
        → distribute_within most value (pos n) ≡ Err (fault no.TooLong) }
    ensures copies_negative { (most : ℕ) (value : T) (n : ℕ) →
        distribute_within most value (negsuc n) ≡ Err (fault no.NegativeLength) }
    ensures steps_above_limit { (most : ℕ) (init stride : ℤ) (n : ℕ) → most < n
        → index_within most init stride (pos n) ≡ Err (fault no.TooLong) }
    ensures steps_negative { (most : ℕ) (init stride : ℤ) (n : ℕ) →
        index_within most init stride (negsuc n) ≡ Err (fault no.NegativeLength) }
    ensures above_limit { (most n : ℕ) → most < n → length_within most (pos n) ≡ Err (fault no.TooLong) }
    ensures negative { (most n : ℕ) → length_within most (negsuc n) ≡ Err (fault no.NegativeLength) }
{}

/// Whatever the limit: a vector of m + n copies, or of m + n numbers by a stride, is one of m and one of n, whose first number is
/// that at place m.
pub fn distribute_in_parts<T>()
    ensures copies { (most : ℕ) (value : T) (m n : ℕ) → m + n ≤ most →
        distribute_within most value (pos (m + n))
        ≡ in_two m (distribute_within most value (pos m)) (distribute_within most value (pos n)) }
    ensures steps { (most : ℕ) (init stride : ℤ) (m n : ℕ) → m + n ≤ most →
        index_within most init stride (pos (m + n)) ≡ in_two m (index_within most init stride (pos m))
        (index_within most (wrap (init +ℤ pos m *ℤ stride)) stride (pos n)) }
{}
