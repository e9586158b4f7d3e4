//! Descriptors, given as lengths.

ghost use Rattle.std.specs.Prelude.{◌≡◌, Ok, sum};
ghost use Rattle.c_calls.specs.Calls.{by_segments};

use crate::checks::segments;
use cvl_base::Fault;

/// How many elements the segments have in all.
pub fn total(lengths: &[i32]) -> Result<usize, Fault>
    ensures { result ≡ by_segments lengths.now (λ d. Ok (sum d)) }
{
    let d = segments(lengths)?;
    Ok(d.total())
}
