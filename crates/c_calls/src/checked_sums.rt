//! Sums that never wrap, of whole vectors and of segments.

ghost use Rattle.std.specs.Prelude.{◌≡◌};
ghost use Rattle.cvl_base.specs.CheckedSums.{checked_reduce_of, checked_scan_of, checked_seg_reduce_of, checked_seg_scan_of};
ghost use Rattle.cvl_base.specs.Gives.{Gives};
ghost use Rattle.c_calls.specs.Calls.{by_segments, in_limit};
ghost use Rattle.c_calls.specs.Rooms.{Fills};

use crate::checks::{check_limit, segments};
use cvl_base::{Fault, Refused};
use scan_walks::{checked_scan_over, checked_seg_reduce_vec, checked_seg_scan_over, checked_sum};
use std::alloc::Global;

/// For each integer the sum of those before it.
pub fn scan(a: &[i32], out: &mut [i32]) -> Result<(), Fault>
    ensures { Fills (in_limit a.now (checked_scan_of a.now)) result out.old out.new }
{
    check_limit(a)?;
    checked_scan_over(a, out)
}

/// The sum of the integers.
pub fn reduce(a: &[i32]) -> Result<i32, Fault>
    ensures { result ≡ in_limit a.now (checked_reduce_of a.now) }
{
    check_limit(a)?;
    checked_sum(a)
}

/// The scan of each segment.
pub fn scan_each(a: &[i32], lengths: &[i32], out: &mut [i32]) -> Result<(), Fault>
    ensures { Fills (by_segments lengths.now (checked_seg_scan_of a.now)) result out.old out.new }
{
    let d = segments(lengths)?;
    checked_seg_scan_over(a, &d, out)
}

/// The sum of each segment.
pub fn reduce_each(alloc: Global, a: &[i32], lengths: &[i32]) -> Result<Vec<i32, Global>, Refused>
    ensures { Gives (λ v. v.items) result (by_segments lengths.now (checked_seg_reduce_of a.now)) }
{
    let d = segments(lengths)?;
    checked_seg_reduce_vec(alloc, a, &d)
}
