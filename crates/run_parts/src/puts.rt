//! What a part puts into its range of a room, once all parts have told their runs.

ghost use Rattle.std.specs.Prelude.{◌≡◌, ◌≤◌, ℤ, List, MatchResult, Err, Ok, length, take};
ghost use Rattle.cvl_base.specs.Integers.{sum_of};
ghost use Rattle.cvl_base.specs.Limits.{most_places};
ghost use Rattle.cvl_base.specs.Rooms.{Overwrites};
ghost use Rattle.run_parts.specs.Puts.{of_first, put_lengths_of, put_starts_of};
ghost use Rattle.segment_parts.specs.Reduces.{join_last};

use c_calls::checks::check_limit;
use cvl_base::limits::MOST_PLACES;
use cvl_base::monoids::Add;
use cvl_base::{Fault, FaultNo};
use scan_walks::{know_numbers, scan_over};

/// The sum of two integers, wrapped to 32 bits.
#[tactic(auto, using(std::proofs::lemmas::Int::wraps))]
fn sum(a: &i32, b: &i32) -> i32
    ensures { result ≡ sum_of a.now b.now }
{
    a.wrapping_add(*b)
}

/// Adds a number to the last one, if there is one. The sum wraps to 32 bits.
pub(crate) fn add_to_last(numbers: &mut [i32], more: &i32)
    ensures { numbers.new ≡ join_last sum_of numbers.old more.now }
{
    let count = numbers.len();
    if count > 0 {
        numbers[count - 1] = sum(&numbers[count - 1], more);
    }
}

/// The first `count` of a part's lengths, beside a number: `TooLong`, without a place, if there are more than 2,147,483,647
/// lengths or the number is more, and `LengthMismatch` if there are fewer lengths than `count`.
fn first_lengths(own: &[i32], count: usize, number: usize) -> Result<&[i32], Fault>
    ensures { MatchResult result (λ lengths. (lengths.now ≡ take count own.now) × (length lengths.now ≡ count)
        × (number ≤ most_places) × (count ≤ most_places)
        × ((made : List ℤ → List ℤ) → of_first number count own.now made ≡ Ok (made lengths.now)))
        (λ f. (made : List ℤ → List ℤ) → of_first number count own.now made ≡ Err f) }
{
    check_limit(own)?;
    if number > MOST_PLACES {
        return Err(Fault::new(FaultNo::TooLong));
    }
    if count > own.len() {
        return Err(Fault::new(FaultNo::LengthMismatch));
    }
    Ok(&own[..count])
}

/// Copies the first of a part's lengths into its range of the room, and adds to the last of them how many elements its run has
/// behind the part. The sum wraps to 32 bits.
///
/// `TooLong`, without a place, if there are more than 2,147,483,647 lengths, or `behind` is more; `LengthMismatch`, without a
/// place, if the range has more places than there are lengths. The range is then as before. Source: reduce_by_key of Thrust
/// over tiles.
pub fn put_run_lengths(behind: usize, own: &[i32], out: &mut [i32]) -> Result<(), Fault>
    ensures { Overwrites (put_lengths_of behind (length out.old) own.now) result out.old out.new }
{
    let lengths = first_lengths(own, out.len(), behind)?;
    out.copy_from_slice(lengths);
    add_to_last(out, &(behind as i32));
    Ok(())
}

/// Writes where the runs begin that have the first of a part's lengths, the first of them at `begin`, into the part's range of
/// the room. Sums wrap to 32 bits.
///
/// `TooLong`, without a place, if there are more than 2,147,483,647 lengths, or `begin` is more; `LengthMismatch`, without a
/// place, if the range has more places than there are lengths. The range is then as before. Source: Blelloch's scan.
pub fn put_run_starts(begin: usize, own: &[i32], out: &mut [i32]) -> Result<(), Fault>
    ensures { Overwrites (put_starts_of begin (length out.old) own.now) result out.old out.new }
{
    let lengths = first_lengths(own, out.len(), begin)?;
    let first = begin as i32;
    know_numbers(&[first]);
    know_numbers(lengths);
    scan_over::<Add>(first, lengths, out)
}
