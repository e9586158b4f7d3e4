//! Checks of what the library leaves to its callers.

ghost use Rattle.std.specs.Prelude.{◌≡◌, ◌≤◌, ◌<◌, Err, Ok, Result, length, MatchResult};
ghost use Rattle.cvl_base.specs.declared.fault.FaultNo.TheVariants as no;
ghost use Rattle.cvl_base.specs.Faults.{fault};
ghost use Rattle.cvl_base.specs.Gives.{Gives};
ghost use Rattle.cvl_base.specs.Limits.{most_places};
ghost use Rattle.c_calls.specs.Calls.{lengths_of};

use cvl_base::limits::MOST_PLACES;
use cvl_base::{Fault, FaultNo, Refused};
use segdes::{SegDes, SegLengths};
use std::alloc::Global;

/// Checks that a vector has at most 2,147,483,647 elements, else `TooLong`, without a place.
pub fn check_limit<T>(vector: &[T]) -> Result<(), Fault>
    ensures { MatchResult result (λ _. length vector.now ≤ most_places)
        (λ f. (f ≡ fault no.TooLong) × (most_places < length vector.now)) }
{
    if vector.len() > MOST_PLACES {
        return Err(Fault::new(FaultNo::TooLong));
    }
    Ok(())
}

/// The segments with these lengths, which are not copied. `TooLong`, without a place, if there are more than 2,147,483,647
/// lengths; `NegativeLength` at the first negative one; `TooLong` if they add up to more than 2,147,483,647.
pub fn segments(lengths: &[i32]) -> Result<SegLengths<'_>, Fault>
    ensures { MatchResult result (λ d. lengths_of lengths.now ≡ Ok d) (λ f. lengths_of lengths.now ≡ Err f) }
{
    check_limit(lengths)?;
    SegLengths::of(lengths)
}

/// The descriptor of segments with these lengths. `TooLong`, without a place, if there are more than 2,147,483,647 lengths;
/// `NegativeLength` at the first negative one; `TooLong` if they add up to more than 2,147,483,647.
pub fn descriptor(alloc: Global, lengths: &[i32]) -> Result<SegDes<Global>, Refused>
    ensures { Gives (λ d. d) result (lengths_of lengths.now) }
{
    check_limit(lengths)?;
    SegDes::from_long_lengths(alloc, lengths)
}
