//! Scans that continue from what stands before: several threads of the caller's share a vector, and each scans its own tiles.

ghost use Rattle.std.specs.Prelude.{IsTrue, Ok};
ghost use Rattle.std.specs.List.{AllPass};
ghost use Rattle.cvl_base.specs.Folds.{scan_of};
ghost use Rattle.c_calls.specs.Calls.{in_limit};
ghost use Rattle.c_calls.specs.Rooms.{Fills};
ghost use Rattle.c_calls.specs.Scans.{bool_scan_after_by, int_scan_after_by};

use crate::checks::check_limit;
use crate::numbers::operator_of;
use cvl_base::{BoolBinary, Fault, IntMonoid, Monoid, by_bool_binary, by_int_monoid};
use scan_walks::{know_numbers, scan_over};

/// At each place `before`, joined from left to right with the elements before it.
fn scan_after<M: Monoid>(before: &M::Item, a: &[M::Item], out: &mut [M::Item]) -> Result<(), Fault>
    requires before { IsTrue (M.is_item before.now) }
    requires items { AllPass M.is_item a.now }
    ensures { Fills (in_limit a.now (Ok (scan_of M.join before.now a.now))) result out.old out.new }
{
    check_limit(a)?;
    scan_over::<M>(*before, a, out)
}

/// The same as [`int_scan_after`]. Its contract names the integer itself; the contract of a call by value names the number of its
/// word.
fn int_scan_after_ref(op: u32, before: &i32, a: &[i32], out: &mut [i32]) -> Result<(), Fault>
    ensures { Fills (int_scan_after_by op before.now a.now) result out.old out.new }
{
    let op = operator_of::<IntMonoid>(op)?;
    know_numbers(&[*before]);
    know_numbers(a);
    by_int_monoid!(op, scan_after::<_>(before, a, out))
}

/// The scan of integers by operator number `op`, after an integer.
pub fn int_scan_after(op: u32, before: i32, a: &[i32], out: &mut [i32]) -> Result<(), Fault>
    ensures { Fills (int_scan_after_by op before a.now) result out.old out.new }
{
    int_scan_after_ref(op, &before, a, out)
}

/// The scan of booleans by operator number `op`, after a boolean.
pub fn bool_scan_after(op: u32, before: bool, a: &[bool], out: &mut [bool]) -> Result<(), Fault>
    ensures { Fills (bool_scan_after_by op before a.now) result out.old out.new }
{
    let op = operator_of::<BoolBinary>(op)?;
    by_bool_binary!(op, scan_after::<_>(&before, a, out))
}
