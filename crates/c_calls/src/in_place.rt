//! Scans in place: the result overwrites the vector that the call reads, which is as before if there is a fault. They check what
//! the same scans into a room check, in the same order; there is no room whose length could differ.

ghost use Rattle.std.specs.Prelude.{◌≡◌, Ok};
ghost use Rattle.std.specs.List.{AllPass};
ghost use Rattle.cvl_base.specs.Folds.{scan_of};
ghost use Rattle.cvl_base.specs.Rooms.{Overwrites};
ghost use Rattle.cvl_base.specs.SegmentedCalls.{seg_scan_of};
ghost use Rattle.c_calls.specs.Calls.{by_segments, in_limit};
ghost use Rattle.c_calls.specs.Tiles.{bool_scan_after, int_scan_after};
ghost use Rattle.c_calls.specs.Scans.{bool_scan_after_by, bool_scan_by, int_scan_after_by, int_scan_by};
ghost use Rattle.c_calls.specs.Scans.{seg_bool_scan_by, seg_int_scan_by};

use crate::checks::{check_limit, segments};
use crate::numbers::operator_of;
use cvl_base::monoid::know_laws;
use cvl_base::{BoolBinary, Fault, IntMonoid, Monoid, by_bool_binary, by_int_monoid};
use scan_walks::{know_numbers, scan_in, seg_scan_in};

/// The scan from the unit on, over the elements.
fn scan<M: Monoid>(a: &mut [M::Item]) -> Result<(), Fault>
    requires { AllPass M.is_item a.old }
    ensures { Overwrites (in_limit a.old (Ok (scan_of M.join M.unit a.old))) result a.old a.new }
{
    check_limit(a)?;
    know_laws::<M>();
    scan_in::<M>(M::unit(), a);
    Ok(())
}

/// The scan of each segment, over the elements.
fn seg_scan<M: Monoid>(a: &mut [M::Item], lengths: &[i32]) -> Result<(), Fault>
    requires { AllPass M.is_item a.old }
    ensures { Overwrites (by_segments lengths.now (seg_scan_of M.join M.unit a.old)) result a.old a.new }
{
    let d = segments(lengths)?;
    seg_scan_in::<M>(a, &d)
}

/// The scan of integers by operator number `op`, over the integers.
pub fn int_scan(op: u32, a: &mut [i32]) -> Result<(), Fault>
    ensures { Overwrites (int_scan_by op a.old) result a.old a.new }
{
    let op = operator_of::<IntMonoid>(op)?;
    know_numbers(a);
    by_int_monoid!(op, scan::<_>(a))
}

/// The scan of integers by an operator, after an integer, over the integers.
fn int_scan_after_by(op: IntMonoid, before: &i32, a: &mut [i32])
    ensures { a.new ≡ int_scan_after op before.now a.old }
{
    know_numbers(&[*before]);
    know_numbers(a);
    by_int_monoid!(op, scan_in::<_>(*before, a))
}

/// The scan of integers by operator number `op`, after an integer, over the integers.
pub fn int_scan_after(op: u32, before: i32, a: &mut [i32]) -> Result<(), Fault>
    ensures { Overwrites (int_scan_after_by op before a.old) result a.old a.new }
{
    let op = operator_of::<IntMonoid>(op)?;
    check_limit(a)?;
    int_scan_after_by(op, &before, a);
    Ok(())
}

/// The scan of each segment of integers by operator number `op`, over the integers.
pub fn seg_int_scan(op: u32, a: &mut [i32], lengths: &[i32]) -> Result<(), Fault>
    ensures { Overwrites (seg_int_scan_by op a.old lengths.now) result a.old a.new }
{
    let op = operator_of::<IntMonoid>(op)?;
    know_numbers(a);
    by_int_monoid!(op, seg_scan::<_>(a, lengths))
}

/// The scan of booleans by operator number `op`, over the booleans.
pub fn bool_scan(op: u32, a: &mut [bool]) -> Result<(), Fault>
    ensures { Overwrites (bool_scan_by op a.old) result a.old a.new }
{
    let op = operator_of::<BoolBinary>(op)?;
    by_bool_binary!(op, scan::<_>(a))
}

/// The scan of booleans by an operator, after a boolean, over the booleans.
fn bool_scan_after_by(op: BoolBinary, before: bool, a: &mut [bool])
    ensures { a.new ≡ bool_scan_after op before a.old }
{
    by_bool_binary!(op, scan_in::<_>(before, a))
}

/// The scan of booleans by operator number `op`, after a boolean, over the booleans.
pub fn bool_scan_after(op: u32, before: bool, a: &mut [bool]) -> Result<(), Fault>
    ensures { Overwrites (bool_scan_after_by op before a.old) result a.old a.new }
{
    let op = operator_of::<BoolBinary>(op)?;
    check_limit(a)?;
    bool_scan_after_by(op, before, a);
    Ok(())
}

/// The scan of each segment of booleans by operator number `op`, over the booleans.
pub fn seg_bool_scan(op: u32, a: &mut [bool], lengths: &[i32]) -> Result<(), Fault>
    ensures { Overwrites (seg_bool_scan_by op a.old lengths.now) result a.old a.new }
{
    let op = operator_of::<BoolBinary>(op)?;
    by_bool_binary!(op, seg_scan::<_>(a, lengths))
}
