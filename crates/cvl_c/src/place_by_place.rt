//! The elementwise calls, on vectors of at most 2,147,483,647 elements.

ghost use Rattle.std.specs.Prelude.{Ok};
ghost use Rattle.cvl_base.specs.Elementwise.{bools_from_ints, choose_of};
ghost use Rattle.cvl_base.specs.Elementwise.{ints_from_bools};
ghost use Rattle.c_calls.specs.Calls.{in_limit};
ghost use Rattle.flag_calls.specs.Flags.{flags_of};
ghost use Rattle.c_calls.specs.Told.{RoomTold};
ghost use Rattle.c_calls.specs.PlaceByPlace.{bool1_by, bool2_by, choose_flags, compare_by, int1_by, int2_by};

use c_calls::checks::check_limit;
use c_calls::numbers::operator_of;
use c_calls::or_tell;
use c_calls::place_by_place::{bool_from_int, compare, int2, select_int};
use c_calls::status::{CvlStatus, told_over};
use cvl_base::{BoolBinary, Unary};
use elementwise::int1_over;
use flag_calls::{bool1_over, bool2_over, int_from_bool_over, select_flags_over};

/// The operator on each two integers at the same place: `add_wuz` and its like.
#[unsafe(no_mangle)]
pub extern "C" fn cvl_proved_int2(op: u32, a: &[i32], b: &[i32], out: &mut [i32]) -> CvlStatus
    ensures { RoomTold (int2_by op a.now b.now) result out.old out.new }
{
    told_over::<i32>(int2(op, a, b, out))
}

/// The operator on each integer: `not_wuz` and `cpy_wuz`.
#[unsafe(no_mangle)]
pub extern "C" fn cvl_proved_int1(op: u32, a: &[i32], out: &mut [i32]) -> CvlStatus
    ensures { RoomTold (int1_by op a.now) result out.old out.new }
{
    let op = or_tell!(operator_of::<Unary>(op));
    or_tell!(check_limit(a));
    told_over::<i32>(int1_over(op, a, out))
}

/// The comparison of each two integers at the same place: `grt_wuz` and its like.
#[unsafe(no_mangle)]
pub extern "C" fn cvl_proved_compare(op: u32, a: &[i32], b: &[i32], out: &mut [bool]) -> CvlStatus
    ensures { RoomTold (compare_by op a.now b.now) result out.old out.new }
{
    told_over::<bool>(compare(op, a, b, out))
}

/// The operator on each two flags at the same place: `and_wub` and its like.
#[unsafe(no_mangle)]
pub extern "C" fn cvl_proved_bool2(op: u32, a: &[u8], b: &[u8], out: &mut [u8]) -> CvlStatus
    ensures { RoomTold (bool2_by op a.now b.now) result out.old out.new }
{
    let op = or_tell!(operator_of::<BoolBinary>(op));
    or_tell!(check_limit(a));
    told_over::<u8>(bool2_over(op, a, b, out))
}

/// The operator on each flag: `not_wub` and `cpy_wub`.
#[unsafe(no_mangle)]
pub extern "C" fn cvl_proved_bool1(op: u32, a: &[u8], out: &mut [u8]) -> CvlStatus
    ensures { RoomTold (bool1_by op a.now) result out.old out.new }
{
    let op = or_tell!(operator_of::<Unary>(op));
    or_tell!(check_limit(a));
    told_over::<u8>(bool1_over(op, a, out))
}

/// 1 for each true flag, and 0 for each false one: `int_wub`.
#[unsafe(no_mangle)]
pub extern "C" fn cvl_proved_int_from_bool(a: &[u8], out: &mut [i32]) -> CvlStatus
    ensures { RoomTold (in_limit a.now (Ok (ints_from_bools (flags_of a.now)))) result out.old out.new }
{
    or_tell!(check_limit(a));
    told_over::<i32>(int_from_bool_over(a, out))
}

/// True for each integer that isn't 0: `boo_wuz`.
#[unsafe(no_mangle)]
pub extern "C" fn cvl_proved_bool_from_int(a: &[i32], out: &mut [bool]) -> CvlStatus
    ensures { RoomTold (in_limit a.now (Ok (bools_from_ints a.now))) result out.old out.new }
{
    told_over::<bool>(bool_from_int(a, out))
}

/// At each place the integer of `a` if the flag is true, else that of `b`: `sel_wuz`.
#[unsafe(no_mangle)]
pub extern "C" fn cvl_proved_select_int(
    flags: &[u8],
    a: &[i32],
    b: &[i32],
    out: &mut [i32],
) -> CvlStatus
    ensures { RoomTold (in_limit flags.now (choose_of (flags_of flags.now) a.now b.now)) result out.old out.new }
{
    told_over::<i32>(select_int(flags, a, b, out))
}

/// At each place the flag of `a` if that of `flags` is true, else that of `b`: `sel_wub`.
#[unsafe(no_mangle)]
pub extern "C" fn cvl_proved_select_bool(
    flags: &[u8],
    a: &[u8],
    b: &[u8],
    out: &mut [u8],
) -> CvlStatus
    ensures { RoomTold (choose_flags flags.now a.now b.now) result out.old out.new }
{
    or_tell!(check_limit(flags));
    told_over::<u8>(select_flags_over(flags, a, b, out))
}
