//! The starts of segments.

ghost use Rattle.std.specs.Prelude.{IfOk, map, unsigned_abs};
ghost use Rattle.cvl_base.specs.Descriptors.{AreLengthsWithin};
ghost use Rattle.cvl_base.specs.Limits.{most_places};
ghost use Rattle.segdes.specs.Starts.{IsKept};

use cvl_base::NoResources;
use std::alloc::Allocator;

/// The starts of the segments with these lengths, and the total of the lengths, in one pass.
pub(crate) fn starts_and_total<A: Allocator>(
    alloc: A,
    lengths: &[i32],
) -> Result<(Vec<u32, A>, u32), NoResources>
    requires { AreLengthsWithin most_places lengths.now }
    ensures { IfOk result (λ kept. IsKept (map unsigned_abs lengths.now) kept.0.items kept.1) }
{
    let mut starts = Vec::with_capacity(alloc, lengths.len())?;
    let mut end: u32 = 0;
    for length in lengths {
        starts.push_reserved(end);
        end += *length as u32;
    }
    Ok((starts, end))
}
