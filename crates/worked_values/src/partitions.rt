//! Worked values of a partition by a digit: of numbers, by their last digit.

ghost use Rattle.std.specs.Prelude.{◌≡◌, ◌%◌};
ghost use Rattle.digit_partitions.specs.Ends.{digit_ends};
ghost use Rattle.digit_partitions.specs.Partitions.{digit_counts, partitioned};
ghost use Rattle.worked_values.specs.Written.{lengths};

/// Numbers with the same digit stay in their order. Those with a digit that is none of so many are left out, so no digit of a
/// partition may be.
pub fn partition()
    ensures stable { partitioned (λ n. n % 10) 10 (lengths "12 31 11 22 32 21") ≡ lengths "31 11 21 12 22 32" }
    ensures one_digit { partitioned (λ n. n % 10) 10 (lengths "37 17 27") ≡ lengths "37 17 27" }
    ensures falling { partitioned (λ n. n % 10) 10 (lengths "3 2 1 0") ≡ lengths "0 1 2 3" }
    ensures few_digits { partitioned (λ n. n % 10) 2 (lengths "12 31 10") ≡ lengths "10 31" }
    ensures nothing { partitioned (λ n. n % 10) 10 (lengths "") ≡ lengths "" }
    ensures counts { digit_counts (λ n. n % 10) 4 (lengths "12 31 11 22 32 21") ≡ lengths "0 3 3 0" }
    ensures ends { digit_ends (λ n. n % 10) 4 (lengths "12 31 11 22 32 21") ≡ lengths "0 3 6 6" }
{}
