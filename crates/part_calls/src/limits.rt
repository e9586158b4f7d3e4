//! That a part lies within the longest vector.

ghost use Rattle.std.specs.Prelude.{◌≡◌, ◌≤◌, ◌<◌, ◌+◌, MatchResult};
ghost use Rattle.cvl_base.specs.declared.fault.FaultNo.TheVariants as no;
ghost use Rattle.cvl_base.specs.Faults.{fault};
ghost use Rattle.cvl_base.specs.Limits.{most_places};

use cvl_base::limits::MOST_PLACES;
use cvl_base::{Fault, FaultNo};

/// Checks that there are at most 2,147,483,647, else `TooLong`, without a place.
pub(crate) fn check_few(count: usize) -> Result<(), Fault>
    ensures { MatchResult result (λ _. count ≤ most_places) (λ f. (f ≡ fault no.TooLong) × (most_places < count)) }
{
    if count > MOST_PLACES {
        return Err(Fault::new(FaultNo::TooLong));
    }
    Ok(())
}

/// Checks that `count` places from `lowest` on are among the first 2,147,483,647, else `TooLong`, without a place.
pub(crate) fn check_end(lowest: usize, count: usize) -> Result<(), Fault>
    ensures { MatchResult result (λ _. lowest + count ≤ most_places)
        (λ f. (f ≡ fault no.TooLong) × (most_places < lowest + count)) }
{
    check_few(lowest)?;
    if count > MOST_PLACES - lowest {
        return Err(Fault::new(FaultNo::TooLong));
    }
    Ok(())
}
