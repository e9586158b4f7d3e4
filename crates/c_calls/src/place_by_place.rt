//! The elementwise calls, on vectors of at most 2,147,483,647 elements.

ghost use Rattle.std.specs.Prelude.{Ok};
ghost use Rattle.cvl_base.specs.Elementwise.{bools_from_ints, choose_of};
ghost use Rattle.c_calls.specs.Calls.{in_limit};
ghost use Rattle.flag_calls.specs.Flags.{flags_of};
ghost use Rattle.c_calls.specs.PlaceByPlace.{compare_by, int2_by};
ghost use Rattle.c_calls.specs.Rooms.{Fills};

use crate::checks::check_limit;
use crate::numbers::operator_of;
use cvl_base::{Comparison, Fault, IntBinary};
use elementwise::{bool_from_int_over, compare_over, int2_over};
use flag_calls::select_over;

/// The operator on each two integers at the same place.
pub fn int2(op: u32, a: &[i32], b: &[i32], out: &mut [i32]) -> Result<(), Fault>
    ensures { Fills (int2_by op a.now b.now) result out.old out.new }
{
    let op = operator_of::<IntBinary>(op)?;
    check_limit(a)?;
    int2_over(op, a, b, out)
}

/// The comparison of each two integers at the same place.
pub fn compare(op: u32, a: &[i32], b: &[i32], out: &mut [bool]) -> Result<(), Fault>
    ensures { Fills (compare_by op a.now b.now) result out.old out.new }
{
    let op = operator_of::<Comparison>(op)?;
    check_limit(a)?;
    compare_over(op, a, b, out)
}

/// True for each integer that isn't 0.
pub fn bool_from_int(a: &[i32], out: &mut [bool]) -> Result<(), Fault>
    ensures { Fills (in_limit a.now (Ok (bools_from_ints a.now))) result out.old out.new }
{
    check_limit(a)?;
    bool_from_int_over(a, out)
}

/// At each place the integer of `a` if the flag is true, else that of `b`.
pub fn select_int(flags: &[u8], a: &[i32], b: &[i32], out: &mut [i32]) -> Result<(), Fault>
    ensures { Fills (in_limit flags.now (choose_of (flags_of flags.now) a.now b.now)) result out.old out.new }
{
    check_limit(flags)?;
    select_over(flags, a, b, out)
}
