//! Sums that never wrap, of whole vectors and of segments.

ghost use Rattle.cvl_base.specs.CheckedSums.{checked_reduce_of, checked_scan_of, checked_seg_reduce_of, checked_seg_scan_of};
ghost use Rattle.c_calls.specs.Calls.{by_segments, in_limit};
ghost use Rattle.c_calls.specs.Told.{RoomTold, RoomToldOr, Told};

use c_calls::checked_sums::{reduce, reduce_each, scan, scan_each};
use c_calls::status::{CvlStatus, told, told_one, told_over};
use std::alloc::Global;

/// For each integer the sum of those before it, which never wraps: `tot_suz`.
#[unsafe(no_mangle)]
pub extern "C" fn cvl_proved_checked_scan(a: &[i32], out: &mut [i32]) -> CvlStatus
    ensures { RoomTold (in_limit a.now (checked_scan_of a.now)) result out.old out.new }
{
    told_over::<i32>(scan(a, out))
}

/// The sum of the integers, which never wraps: `tot_ruz`.
#[unsafe(no_mangle)]
pub extern "C" fn cvl_proved_checked_reduce(a: &[i32], out: &mut i32) -> CvlStatus
    ensures { Told (in_limit a.now (checked_reduce_of a.now)) result out.old out.new }
{
    told_one(reduce(a), out)
}

/// For each integer the sum of those before it in its segment, which never wraps: `tot_sez`.
#[unsafe(no_mangle)]
pub extern "C" fn cvl_proved_seg_checked_scan(
    a: &[i32],
    lengths: &[i32],
    out: &mut [i32],
) -> CvlStatus
    ensures { RoomTold (by_segments lengths.now (checked_seg_scan_of a.now)) result out.old out.new }
{
    told_over::<i32>(scan_each(a, lengths, out))
}

/// The sum of each segment, which never wraps: `tot_rez`.
#[unsafe(no_mangle)]
pub extern "C" fn cvl_proved_seg_checked_reduce(
    alloc: Global,
    a: &[i32],
    lengths: &[i32],
    out: &mut [i32],
) -> CvlStatus
    ensures { RoomToldOr (by_segments lengths.now (checked_seg_reduce_of a.now)) result out.old out.new }
{
    told(reduce_each(alloc, a, lengths), out)
}
