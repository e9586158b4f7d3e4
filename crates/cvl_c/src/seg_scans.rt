//! Scans and reduces of each segment. Segments are given as lengths.

ghost use Rattle.c_calls.specs.Told.{RoomTold};
ghost use Rattle.c_calls.specs.Scans.{seg_bool_reduce_by, seg_bool_scan_by, seg_int_reduce_by, seg_int_scan_by};

use c_calls::seg_scans::{bool_reduce, bool_scan, int_reduce, int_scan};
use c_calls::status::{CvlStatus, told_over};

/// For each integer those before it in its segment, joined by the operator: `add_sez` and its like.
#[unsafe(no_mangle)]
pub extern "C" fn cvl_proved_seg_int_scan(
    op: u32,
    a: &[i32],
    lengths: &[i32],
    out: &mut [i32],
) -> CvlStatus
    ensures { RoomTold (seg_int_scan_by op a.now lengths.now) result out.old out.new }
{
    told_over::<i32>(int_scan(op, a, lengths, out))
}

/// The integers of each segment joined by the operator: `add_rez` and its like.
#[unsafe(no_mangle)]
pub extern "C" fn cvl_proved_seg_int_reduce(
    op: u32,
    a: &[i32],
    lengths: &[i32],
    out: &mut [i32],
) -> CvlStatus
    ensures { RoomTold (seg_int_reduce_by op a.now lengths.now) result out.old out.new }
{
    told_over::<i32>(int_reduce(op, a, lengths, out))
}

/// For each boolean those before it in its segment, joined by the operator: `and_seb` and its like.
#[unsafe(no_mangle)]
pub extern "C" fn cvl_proved_seg_bool_scan(
    op: u32,
    a: &[bool],
    lengths: &[i32],
    out: &mut [bool],
) -> CvlStatus
    ensures { RoomTold (seg_bool_scan_by op a.now lengths.now) result out.old out.new }
{
    told_over::<bool>(bool_scan(op, a, lengths, out))
}

/// The flags of each segment joined by the operator: `and_reb` and its like.
#[unsafe(no_mangle)]
pub extern "C" fn cvl_proved_seg_bool_reduce(
    op: u32,
    a: &[u8],
    lengths: &[i32],
    out: &mut [bool],
) -> CvlStatus
    ensures { RoomTold (seg_bool_reduce_by op a.now lengths.now) result out.old out.new }
{
    told_over::<bool>(bool_reduce(op, a, lengths, out))
}
