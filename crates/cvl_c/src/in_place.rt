//! The calls in place: the result overwrites a vector that the call reads, and there is no room.

ghost use Rattle.cvl_base.specs.CheckedSums.{checked_scan_of, checked_seg_scan_of};
ghost use Rattle.c_calls.specs.Calls.{by_segments, in_limit};
ghost use Rattle.c_calls.specs.Told.{Told};
ghost use Rattle.c_calls.specs.PlaceByPlace.{int1_by, int2_by};
ghost use Rattle.c_calls.specs.Scans.{int_scan_after_by, int_scan_by, seg_int_scan_by};

use c_calls::checks::{check_limit, segments};
use c_calls::in_place::{int_scan, int_scan_after, seg_int_scan};
use c_calls::numbers::operator_of;
use c_calls::or_tell;
use c_calls::status::{CvlStatus, done, told_over};
use cvl_base::{IntBinary, Unary};
use elementwise::{int1_in, int2_in_both, int2_in_first, int2_in_second};
use scan_walks::{checked_scan_in, checked_seg_scan_in};

/// `cvl_proved_int2` over `a`.
#[unsafe(no_mangle)]
pub extern "C" fn cvl_proved_int2_in_first(op: u32, a: &mut [i32], b: &[i32]) -> CvlStatus
    ensures { Told (int2_by op a.old b.now) result a.old a.new }
{
    let op = or_tell!(operator_of::<IntBinary>(op));
    or_tell!(check_limit(a));
    told_over::<i32>(int2_in_first(op, a, b))
}

/// `cvl_proved_int2` over `b`.
#[unsafe(no_mangle)]
pub extern "C" fn cvl_proved_int2_in_second(op: u32, a: &[i32], b: &mut [i32]) -> CvlStatus
    ensures { Told (int2_by op a.now b.old) result b.old b.new }
{
    let op = or_tell!(operator_of::<IntBinary>(op));
    or_tell!(check_limit(a));
    told_over::<i32>(int2_in_second(op, a, b))
}

/// `cvl_proved_int2` of `a` and itself, over `a`.
#[unsafe(no_mangle)]
pub extern "C" fn cvl_proved_int2_in_both(op: u32, a: &mut [i32]) -> CvlStatus
    ensures { Told (int2_by op a.old a.old) result a.old a.new }
{
    let op = or_tell!(operator_of::<IntBinary>(op));
    or_tell!(check_limit(a));
    told_over::<i32>(int2_in_both(op, a))
}

/// `cvl_proved_int1` over `a`.
#[unsafe(no_mangle)]
pub extern "C" fn cvl_proved_int1_in(op: u32, a: &mut [i32]) -> CvlStatus
    ensures { Told (int1_by op a.old) result a.old a.new }
{
    let op = or_tell!(operator_of::<Unary>(op));
    or_tell!(check_limit(a));
    int1_in(op, a);
    done()
}

/// `cvl_proved_int_scan` over `a`.
#[unsafe(no_mangle)]
pub extern "C" fn cvl_proved_int_scan_in(op: u32, a: &mut [i32]) -> CvlStatus
    ensures { Told (int_scan_by op a.old) result a.old a.new }
{
    told_over::<i32>(int_scan(op, a))
}

/// `cvl_proved_int_scan_after` over `a`.
#[unsafe(no_mangle)]
pub extern "C" fn cvl_proved_int_scan_after_in(op: u32, before: i32, a: &mut [i32]) -> CvlStatus
    ensures { Told (int_scan_after_by op before a.old) result a.old a.new }
{
    told_over::<i32>(int_scan_after(op, before, a))
}

/// `cvl_proved_checked_scan` over `a`.
#[unsafe(no_mangle)]
pub extern "C" fn cvl_proved_checked_scan_in(a: &mut [i32]) -> CvlStatus
    ensures { Told (in_limit a.old (checked_scan_of a.old)) result a.old a.new }
{
    or_tell!(check_limit(a));
    told_over::<i32>(checked_scan_in(a))
}

/// `cvl_proved_seg_int_scan` over `a`.
#[unsafe(no_mangle)]
pub extern "C" fn cvl_proved_seg_int_scan_in(op: u32, a: &mut [i32], lengths: &[i32]) -> CvlStatus
    ensures { Told (seg_int_scan_by op a.old lengths.now) result a.old a.new }
{
    told_over::<i32>(seg_int_scan(op, a, lengths))
}

/// `cvl_proved_seg_checked_scan` over `a`.
#[unsafe(no_mangle)]
pub extern "C" fn cvl_proved_seg_checked_scan_in(a: &mut [i32], lengths: &[i32]) -> CvlStatus
    ensures { Told (by_segments lengths.now (checked_seg_scan_of a.old)) result a.old a.new }
{
    let d = or_tell!(segments(lengths));
    told_over::<i32>(checked_seg_scan_in(a, &d))
}
