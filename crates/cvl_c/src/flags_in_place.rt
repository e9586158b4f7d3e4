//! The calls on booleans, and the choices, in place: the result overwrites a vector that the call reads.

ghost use Rattle.cvl_base.specs.Elementwise.{choose_of};
ghost use Rattle.c_calls.specs.Calls.{in_limit};
ghost use Rattle.flag_calls.specs.Flags.{flags_of};
ghost use Rattle.c_calls.specs.Told.{Told};
ghost use Rattle.c_calls.specs.PlaceByPlace.{bool1_by, bool2_by, choose_flags};
ghost use Rattle.c_calls.specs.Scans.{bool_scan_after_by, bool_scan_by, seg_bool_scan_by};

use c_calls::checks::check_limit;
use c_calls::in_place::{bool_scan, bool_scan_after, seg_bool_scan};
use c_calls::numbers::operator_of;
use c_calls::or_tell;
use c_calls::status::{CvlStatus, told_over};
use cvl_base::{BoolBinary, Unary};
use flag_calls::{
    bool1_in, bool2_in_both, bool2_in_first, bool2_in_second, select_flags_in_first,
    select_flags_in_second, select_in_first, select_in_second,
};

/// `cvl_proved_bool2` over `a`.
#[unsafe(no_mangle)]
pub extern "C" fn cvl_proved_bool2_in_first(op: u32, a: &mut [u8], b: &[u8]) -> CvlStatus
    ensures { Told (bool2_by op a.old b.now) result a.old a.new }
{
    let op = or_tell!(operator_of::<BoolBinary>(op));
    or_tell!(check_limit(a));
    told_over::<u8>(bool2_in_first(op, a, b))
}

/// `cvl_proved_bool2` over `b`.
#[unsafe(no_mangle)]
pub extern "C" fn cvl_proved_bool2_in_second(op: u32, a: &[u8], b: &mut [u8]) -> CvlStatus
    ensures { Told (bool2_by op a.now b.old) result b.old b.new }
{
    let op = or_tell!(operator_of::<BoolBinary>(op));
    or_tell!(check_limit(a));
    told_over::<u8>(bool2_in_second(op, a, b))
}

/// `cvl_proved_bool2` of `a` and itself, over `a`.
#[unsafe(no_mangle)]
pub extern "C" fn cvl_proved_bool2_in_both(op: u32, a: &mut [u8]) -> CvlStatus
    ensures { Told (bool2_by op a.old a.old) result a.old a.new }
{
    let op = or_tell!(operator_of::<BoolBinary>(op));
    or_tell!(check_limit(a));
    told_over::<u8>(bool2_in_both(op, a))
}

/// `cvl_proved_bool1` over `a`.
#[unsafe(no_mangle)]
pub extern "C" fn cvl_proved_bool1_in(op: u32, a: &mut [u8]) -> CvlStatus
    ensures { Told (bool1_by op a.old) result a.old a.new }
{
    let op = or_tell!(operator_of::<Unary>(op));
    or_tell!(check_limit(a));
    told_over::<u8>(bool1_in(op, a))
}

/// `cvl_proved_select_int` over `a`.
#[unsafe(no_mangle)]
pub extern "C" fn cvl_proved_select_int_in_first(
    flags: &[u8],
    a: &mut [i32],
    b: &[i32],
) -> CvlStatus
    ensures { Told (in_limit flags.now (choose_of (flags_of flags.now) a.old b.now)) result a.old a.new }
{
    or_tell!(check_limit(flags));
    told_over::<i32>(select_in_first(flags, a, b))
}

/// `cvl_proved_select_int` over `b`.
#[unsafe(no_mangle)]
pub extern "C" fn cvl_proved_select_int_in_second(
    flags: &[u8],
    a: &[i32],
    b: &mut [i32],
) -> CvlStatus
    ensures { Told (in_limit flags.now (choose_of (flags_of flags.now) a.now b.old)) result b.old b.new }
{
    or_tell!(check_limit(flags));
    told_over::<i32>(select_in_second(flags, a, b))
}

/// `cvl_proved_select_bool` over `a`.
#[unsafe(no_mangle)]
pub extern "C" fn cvl_proved_select_bool_in_first(flags: &[u8], a: &mut [u8], b: &[u8]) -> CvlStatus
    ensures { Told (choose_flags flags.now a.old b.now) result a.old a.new }
{
    or_tell!(check_limit(flags));
    told_over::<u8>(select_flags_in_first(flags, a, b))
}

/// `cvl_proved_select_bool` over `b`.
#[unsafe(no_mangle)]
pub extern "C" fn cvl_proved_select_bool_in_second(
    flags: &[u8],
    a: &[u8],
    b: &mut [u8],
) -> CvlStatus
    ensures { Told (choose_flags flags.now a.now b.old) result b.old b.new }
{
    or_tell!(check_limit(flags));
    told_over::<u8>(select_flags_in_second(flags, a, b))
}

/// `cvl_proved_bool_scan` over `a`.
#[unsafe(no_mangle)]
pub extern "C" fn cvl_proved_bool_scan_in(op: u32, a: &mut [bool]) -> CvlStatus
    ensures { Told (bool_scan_by op a.old) result a.old a.new }
{
    told_over::<bool>(bool_scan(op, a))
}

/// `cvl_proved_bool_scan_after` over `a`.
#[unsafe(no_mangle)]
pub extern "C" fn cvl_proved_bool_scan_after_in(op: u32, before: bool, a: &mut [bool]) -> CvlStatus
    ensures { Told (bool_scan_after_by op before a.old) result a.old a.new }
{
    told_over::<bool>(bool_scan_after(op, before, a))
}

/// `cvl_proved_seg_bool_scan` over `a`.
#[unsafe(no_mangle)]
pub extern "C" fn cvl_proved_seg_bool_scan_in(op: u32, a: &mut [bool], lengths: &[i32]) -> CvlStatus
    ensures { Told (seg_bool_scan_by op a.old lengths.now) result a.old a.new }
{
    told_over::<bool>(seg_bool_scan(op, a, lengths))
}
