//! Checks that numbers are the lengths of a descriptor.

ghost use Rattle.std.specs.Prelude.{◌≡◌, ℕ, ◌<◌, ◌≤◌, pos, length, map, sum, unsigned_abs, IfOk, MatchResult, Ok, Err};
ghost use Rattle.std.specs.Int.{is_negative};
ghost use Rattle.cvl_base.specs.Descriptors.{AreLengthsWithin, descriptor_within};
ghost use Rattle.cvl_base.specs.Limits.{most_places};

use cvl_base::{Fault, FaultNo};

/// Whether a number is negative.
fn is_below_zero(number: &i32) -> bool
    ensures { result ≡ is_negative number.now }
{
    *number < 0
}

/// The total of numbers read without their signs, which is that of lengths. A negative number then is at least 2,147,483,648, so
/// that a total below that has none.
// The total of fewer than 2^31 numbers below 2^32 fits 64 bits. The loop has no branch, so that vector code takes several numbers
// at once.
fn unsigned_total(numbers: &[i32]) -> u64
    requires few { length numbers.now ≤ most_places }
    ensures few { result ≤ most_places
        → AreLengthsWithin most_places numbers.now × (result ≡ sum (map unsigned_abs numbers.now)) }
    ensures lengths { numbers.now ≡ map pos (map unsigned_abs numbers.now) → result ≡ sum (map unsigned_abs numbers.now) }
{
    let mut total: u64 = 0;
    for number in numbers {
        total += number.cast_unsigned() as u64;
    }
    total
}

/// The fault of numbers that are not the lengths of a descriptor: `NegativeLength` at the first that is negative, and `TooLong`
/// if none is.
fn fault_of(numbers: &[i32]) -> Fault
    requires few { length numbers.now ≤ most_places }
    ensures { (most : ℕ) → (numbers.now ≡ map pos (map unsigned_abs numbers.now) → most < sum (map unsigned_abs numbers.now))
        → descriptor_within most numbers.now ≡ Err result }
{
    for (place, number) in numbers.iter().enumerate() {
        if is_below_zero(number) {
            return Fault::at(FaultNo::NegativeLength, place as u32);
        }
    }
    Fault::new(FaultNo::TooLong)
}

/// Checks that the numbers are the lengths of a descriptor: none is negative, else `NegativeLength` at the first that is, and
/// their total is at most `most`, else `TooLong`. Returns the total.
pub(crate) fn check_lengths(numbers: &[i32], most: usize) -> Result<u32, Fault>
    requires limit { most ≤ most_places }
    requires few { length numbers.now ≤ most }
    ensures meaning { MatchResult result (λ _. descriptor_within most numbers.now ≡ Ok (map unsigned_abs numbers.now))
        (λ f. descriptor_within most numbers.now ≡ Err f) }
    ensures lengths { IfOk result (λ _. AreLengthsWithin most numbers.now) }
    ensures total { IfOk result (λ total. total ≡ sum (map unsigned_abs numbers.now)) }
{
    let total = unsigned_total(numbers);
    if total <= most as u64 {
        return Ok(total as u32);
    }
    Err(fault_of(numbers))
}
