//! Scans and reduces of whole vectors.

ghost use Rattle.std.specs.Prelude.{◌≡◌, Ok};
ghost use Rattle.std.specs.List.{AllPass};
ghost use Rattle.cvl_base.specs.Folds.{fold_of, scan_of};
ghost use Rattle.c_calls.specs.Calls.{in_limit};
ghost use Rattle.c_calls.specs.Rooms.{Fills};
ghost use Rattle.c_calls.specs.Scans.{bool_reduce_by, bool_scan_by, int_reduce_by, int_scan_by};

use crate::checks::check_limit;
use crate::numbers::operator_of;
use cvl_base::monoid::know_laws;
use cvl_base::{BoolBinary, Fault, IntMonoid, Monoid, by_bool_binary, by_int_monoid};
use scan_walks::{Itself, know_numbers, scan_over, sum_from};

/// At each place the elements before it, joined from left to right; the unit if none is.
fn scan<M: Monoid>(a: &[M::Item], out: &mut [M::Item]) -> Result<(), Fault>
    requires { AllPass M.is_item a.now }
    ensures { Fills (in_limit a.now (Ok (scan_of M.join M.unit a.now))) result out.old out.new }
{
    check_limit(a)?;
    know_laws::<M>();
    scan_over::<M>(M::unit(), a, out)
}

/// The elements, joined from left to right; the unit if there are none.
fn reduce<M: Monoid>(a: &[M::Item]) -> Result<M::Item, Fault>
    requires { AllPass M.is_item a.now }
    ensures { result ≡ in_limit a.now (Ok (fold_of M.join M.unit a.now)) }
{
    check_limit(a)?;
    know_laws::<M>();
    Ok(sum_from::<M, M::Item, Itself>(M::unit(), a))
}

/// The scan of integers by operator number `op`.
pub fn int_scan(op: u32, a: &[i32], out: &mut [i32]) -> Result<(), Fault>
    ensures { Fills (int_scan_by op a.now) result out.old out.new }
{
    let op = operator_of::<IntMonoid>(op)?;
    know_numbers(a);
    by_int_monoid!(op, scan::<_>(a, out))
}

/// The reduce of integers by operator number `op`.
pub fn int_reduce(op: u32, a: &[i32]) -> Result<i32, Fault>
    ensures { result ≡ int_reduce_by op a.now }
{
    let op = operator_of::<IntMonoid>(op)?;
    know_numbers(a);
    by_int_monoid!(op, reduce::<_>(a))
}

/// The scan of booleans by operator number `op`.
pub fn bool_scan(op: u32, a: &[bool], out: &mut [bool]) -> Result<(), Fault>
    ensures { Fills (bool_scan_by op a.now) result out.old out.new }
{
    let op = operator_of::<BoolBinary>(op)?;
    by_bool_binary!(op, scan::<_>(a, out))
}

/// The reduce of flags by operator number `op`.
pub fn bool_reduce(op: u32, a: &[u8]) -> Result<bool, Fault>
    ensures { result ≡ bool_reduce_by op a.now }
{
    let op = operator_of::<BoolBinary>(op)?;
    check_limit(a)?;
    Ok(flag_calls::bool_reduce(op, a))
}
