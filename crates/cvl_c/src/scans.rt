//! Scans and reduces of whole vectors.

ghost use Rattle.c_calls.specs.Told.{RoomTold, Told};
ghost use Rattle.c_calls.specs.Scans.{bool_reduce_by, bool_scan_by, int_reduce_by, int_scan_by};

use c_calls::scans::{bool_reduce, bool_scan, int_reduce, int_scan};
use c_calls::status::{CvlStatus, told_one, told_over};

/// For each integer those before it, joined by the operator: `add_suz` and its like.
#[unsafe(no_mangle)]
pub extern "C" fn cvl_proved_int_scan(op: u32, a: &[i32], out: &mut [i32]) -> CvlStatus
    ensures { RoomTold (int_scan_by op a.now) result out.old out.new }
{
    told_over::<i32>(int_scan(op, a, out))
}

/// The integers joined by the operator: `add_ruz` and its like.
#[unsafe(no_mangle)]
pub extern "C" fn cvl_proved_int_reduce(op: u32, a: &[i32], out: &mut i32) -> CvlStatus
    ensures { Told (int_reduce_by op a.now) result out.old out.new }
{
    told_one(int_reduce(op, a), out)
}

/// For each boolean those before it, joined by the operator: `and_sub` and its like.
#[unsafe(no_mangle)]
pub extern "C" fn cvl_proved_bool_scan(op: u32, a: &[bool], out: &mut [bool]) -> CvlStatus
    ensures { RoomTold (bool_scan_by op a.now) result out.old out.new }
{
    told_over::<bool>(bool_scan(op, a, out))
}

/// The flags joined by the operator: `and_rub` and its like.
#[unsafe(no_mangle)]
pub extern "C" fn cvl_proved_bool_reduce(op: u32, a: &[u8], out: &mut bool) -> CvlStatus
    ensures { Told (bool_reduce_by op a.now) result out.old out.new }
{
    told_one(bool_reduce(op, a), out)
}
