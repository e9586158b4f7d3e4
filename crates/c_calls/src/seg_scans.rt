//! Scans and reduces of each segment. Segments are given as lengths.

ghost use Rattle.c_calls.specs.Rooms.{Fills};
ghost use Rattle.c_calls.specs.Scans.{seg_bool_reduce_by, seg_bool_scan_by, seg_int_reduce_by, seg_int_scan_by};

use crate::checks::segments;
use crate::numbers::operator_of;
use cvl_base::{BoolBinary, Fault, IntMonoid, by_bool_binary, by_int_monoid};
use flag_calls::seg_bool_reduce_over;
use scan_walks::{know_numbers, seg_reduce_over, seg_scan_over};

/// The scan of each segment of integers by operator number `op`.
pub fn int_scan(op: u32, a: &[i32], lengths: &[i32], out: &mut [i32]) -> Result<(), Fault>
    ensures { Fills (seg_int_scan_by op a.now lengths.now) result out.old out.new }
{
    let op = operator_of::<IntMonoid>(op)?;
    let d = segments(lengths)?;
    know_numbers(a);
    by_int_monoid!(op, seg_scan_over::<_>(a, &d, out))
}

/// The reduce of each segment of integers by operator number `op`.
pub fn int_reduce(op: u32, a: &[i32], lengths: &[i32], out: &mut [i32]) -> Result<(), Fault>
    ensures { Fills (seg_int_reduce_by op a.now lengths.now) result out.old out.new }
{
    let op = operator_of::<IntMonoid>(op)?;
    let d = segments(lengths)?;
    know_numbers(a);
    by_int_monoid!(op, seg_reduce_over::<_>(a, &d, out))
}

/// The scan of each segment of booleans by operator number `op`.
pub fn bool_scan(op: u32, a: &[bool], lengths: &[i32], out: &mut [bool]) -> Result<(), Fault>
    ensures { Fills (seg_bool_scan_by op a.now lengths.now) result out.old out.new }
{
    let op = operator_of::<BoolBinary>(op)?;
    let d = segments(lengths)?;
    by_bool_binary!(op, seg_scan_over::<_>(a, &d, out))
}

/// The reduce of each segment of flags by operator number `op`.
pub fn bool_reduce(op: u32, a: &[u8], lengths: &[i32], out: &mut [bool]) -> Result<(), Fault>
    ensures { Fills (seg_bool_reduce_by op a.now lengths.now) result out.old out.new }
{
    let op = operator_of::<BoolBinary>(op)?;
    let d = segments(lengths)?;
    seg_bool_reduce_over(op, a, &d, out)
}
