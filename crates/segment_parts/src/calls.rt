//! Scans of parts, and what stands before each part, by the number of an operator: `UnknownCall`, without a place, if none has
//! it.
//!
//! A part has at most 2,147,483,647 elements, else `TooLong`, without a place; then its lengths are checked, as
//! [`segments`] says.

ghost use Rattle.std.specs.Prelude.{IsTrue};
ghost use Rattle.std.specs.List.{AllPass};
ghost use Rattle.cvl_base.specs.Rooms.{Overwrites};
ghost use Rattle.c_calls.specs.Calls.{by_segments, in_limit};
ghost use Rattle.c_calls.specs.Rooms.{Fills};
ghost use Rattle.segment_parts.specs.Calls.{bool_carries_by, int_carries_by, part_bool_scan_by, part_int_scan_by};
ghost use Rattle.segment_parts.specs.Parts.{part_scan_of};

use crate::carries::seg_carries;
use crate::parts::{part_scan_in, part_scan_over};
use c_calls::checks::{check_limit, segments};
use c_calls::numbers::operator_of;
use cvl_base::{BoolBinary, Fault, IntMonoid, Monoid, by_bool_binary, by_int_monoid};
use scan_walks::know_numbers;

/// The scan of a part whose whole segments are given as their lengths.
fn scan_over<M: Monoid>(
    before: &M::Item,
    head: usize,
    lengths: &[i32],
    a: &[M::Item],
    out: &mut [M::Item],
) -> Result<(), Fault>
    requires before { IsTrue (M.is_item before.now) }
    requires items { AllPass M.is_item a.now }
    ensures { Fills (in_limit a.now (by_segments lengths.now (λ d. part_scan_of M.join M.unit before.now head d a.now)))
        result out.old out.new }
{
    check_limit(a)?;
    let d = segments(lengths)?;
    part_scan_over::<M>(*before, head, &d, a, out)
}

/// The same over the part itself.
fn scan_in<M: Monoid>(
    before: &M::Item,
    head: usize,
    lengths: &[i32],
    a: &mut [M::Item],
) -> Result<(), Fault>
    requires before { IsTrue (M.is_item before.now) }
    requires items { AllPass M.is_item a.old }
    ensures { Overwrites (in_limit a.old (by_segments lengths.now (λ d. part_scan_of M.join M.unit before.now head d a.old)))
        result a.old a.new }
{
    check_limit(a)?;
    let d = segments(lengths)?;
    part_scan_in::<M>(*before, head, &d, a)
}

/// The same as [`part_int_scan`]. Its contract names the integer itself; the contract of a call by value names the number of its
/// word.
fn part_int_scan_ref(
    op: u32,
    before: &i32,
    head: usize,
    lengths: &[i32],
    a: &[i32],
    out: &mut [i32],
) -> Result<(), Fault>
    ensures { Fills (part_int_scan_by op before.now head lengths.now a.now) result out.old out.new }
{
    let op = operator_of::<IntMonoid>(op)?;
    know_numbers(&[*before]);
    know_numbers(a);
    by_int_monoid!(op, scan_over::<_>(before, head, lengths, a, out))
}

/// The scan of a part of integers by operator number `op`: the first `head` after `before`, the whole segments with these lengths
/// and the integers behind them from the unit on. `LengthMismatch` if the part or the room is too short for them.
pub fn part_int_scan(
    op: u32,
    before: i32,
    head: usize,
    lengths: &[i32],
    a: &[i32],
    out: &mut [i32],
) -> Result<(), Fault>
    ensures { Fills (part_int_scan_by op before head lengths.now a.now) result out.old out.new }
{
    part_int_scan_ref(op, &before, head, lengths, a, out)
}

/// The same as [`part_int_scan_in`], by reference for the reason of `part_int_scan_ref`.
fn part_int_scan_in_ref(
    op: u32,
    before: &i32,
    head: usize,
    lengths: &[i32],
    a: &mut [i32],
) -> Result<(), Fault>
    ensures { Overwrites (part_int_scan_by op before.now head lengths.now a.old) result a.old a.new }
{
    let op = operator_of::<IntMonoid>(op)?;
    know_numbers(&[*before]);
    know_numbers(a);
    by_int_monoid!(op, scan_in::<_>(before, head, lengths, a))
}

/// [`part_int_scan`] over the part itself.
pub fn part_int_scan_in(
    op: u32,
    before: i32,
    head: usize,
    lengths: &[i32],
    a: &mut [i32],
) -> Result<(), Fault>
    ensures { Overwrites (part_int_scan_by op before head lengths.now a.old) result a.old a.new }
{
    part_int_scan_in_ref(op, &before, head, lengths, a)
}

/// The scan of a part of booleans by operator number `op`, as [`part_int_scan`].
pub fn part_bool_scan(
    op: u32,
    before: bool,
    head: usize,
    lengths: &[i32],
    a: &[bool],
    out: &mut [bool],
) -> Result<(), Fault>
    ensures { Fills (part_bool_scan_by op before head lengths.now a.now) result out.old out.new }
{
    let op = operator_of::<BoolBinary>(op)?;
    by_bool_binary!(op, scan_over::<_>(&before, head, lengths, a, out))
}

/// [`part_bool_scan`] over the part itself.
pub fn part_bool_scan_in(
    op: u32,
    before: bool,
    head: usize,
    lengths: &[i32],
    a: &mut [bool],
) -> Result<(), Fault>
    ensures { Overwrites (part_bool_scan_by op before head lengths.now a.old) result a.old a.new }
{
    let op = operator_of::<BoolBinary>(op)?;
    by_bool_binary!(op, scan_in::<_>(&before, head, lengths, a))
}

/// What stands before each part of integers by operator number `op`, as [`seg_carries`].
pub fn int_carries(op: u32, starts: &[bool], told: &[i32], out: &mut [i32]) -> Result<(), Fault>
    ensures { Fills (int_carries_by op starts.now told.now) result out.old out.new }
{
    let op = operator_of::<IntMonoid>(op)?;
    know_numbers(told);
    by_int_monoid!(op, seg_carries::<_>(starts, told, out))
}

/// What stands before each part of booleans by operator number `op`, as [`seg_carries`].
pub fn bool_carries(op: u32, starts: &[bool], told: &[bool], out: &mut [bool]) -> Result<(), Fault>
    ensures { Fills (bool_carries_by op starts.now told.now) result out.old out.new }
{
    let op = operator_of::<BoolBinary>(op)?;
    by_bool_binary!(op, seg_carries::<_>(starts, told, out))
}
