//! Checks that two lengths agree.

ghost use Rattle.std.specs.Prelude.{◌≡◌, ◌≢◌, MatchResult};
ghost use Rattle.cvl_base.specs.Faults.{fault};
ghost use Rattle.cvl_base.specs.declared.fault.FaultNo.TheVariants as no;

use crate::fault::{Fault, FaultNo};

/// Checks that two lengths agree, as those of two vectors or of a vector and a descriptor, else `LengthMismatch`,
/// without a place.
pub fn check_agree(left: usize, right: usize) -> Result<(), Fault>
    ensures { MatchResult result (λ _. left ≡ right)
        (λ f. (f ≡ fault no.LengthMismatch) × (left ≢ right)) }
{
    if left == right {
        Ok(())
    } else {
        Err(Fault::new(FaultNo::LengthMismatch))
    }
}
