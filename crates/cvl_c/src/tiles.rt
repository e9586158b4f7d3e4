//! Scans that continue from what stands before: several threads of the caller's share a vector, and each scans its own tiles.

ghost use Rattle.c_calls.specs.Told.{RoomTold};
ghost use Rattle.c_calls.specs.Scans.{bool_scan_after_by, int_scan_after_by};

use c_calls::status::{CvlStatus, told_over};
use c_calls::tiles::{bool_scan_after, int_scan_after};

/// For each integer `before`, joined by the operator with those before it. So threads scan one vector: each reduces its tiles,
/// one of them scans the reduces, and each scans its tiles after what stands before them.
#[unsafe(no_mangle)]
pub extern "C" fn cvl_proved_int_scan_after(
    op: u32,
    before: i32,
    a: &[i32],
    out: &mut [i32],
) -> CvlStatus
    ensures { RoomTold (int_scan_after_by op before a.now) result out.old out.new }
{
    told_over::<i32>(int_scan_after(op, before, a, out))
}

/// For each boolean `before`, joined by the operator with those before it.
#[unsafe(no_mangle)]
pub extern "C" fn cvl_proved_bool_scan_after(
    op: u32,
    before: bool,
    a: &[bool],
    out: &mut [bool],
) -> CvlStatus
    ensures { RoomTold (bool_scan_after_by op before a.now) result out.old out.new }
{
    told_over::<bool>(bool_scan_after(op, before, a, out))
}
