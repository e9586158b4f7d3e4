//! Reduces of parts and what goes on behind each part, by the number of an operator: `UnknownCall`, without a place, if none has
//! it; and counts of parts.
//!
//! A part has at most 2,147,483,647 elements, else `TooLong`, without a place; then its lengths are checked, as
//! [`segments`] says.

ghost use Rattle.std.specs.Prelude.{IsTrue, map};
ghost use Rattle.std.specs.List.{AllPass};
ghost use Rattle.c_calls.specs.Calls.{by_segments, in_limit};
ghost use Rattle.c_calls.specs.Rooms.{Fills};
ghost use Rattle.segment_parts.specs.ReduceCalls.{bool_behinds_by, int_behinds_by};
ghost use Rattle.segment_parts.specs.ReduceCalls.{part_bool_reduce_by, part_count_of, part_int_reduce_by};
ghost use Rattle.segment_parts.specs.Reduces.{part_reduces_of};

use crate::behinds::seg_behinds;
use crate::readings::{OneIfTrue, TrueByte};
use crate::reduces::part_reduces_over;
use c_calls::checks::{check_limit, segments};
use c_calls::numbers::operator_of;
use cvl_base::{BoolBinary, Fault, IntMonoid, Monoid, by_bool_binary, by_int_monoid, monoids};
use scan_walks::{Itself, Reading, know_numbers};

/// The reduces of a part, of the items read from its elements. The segments that start in it are given as their lengths.
fn reduce_over<M: Monoid, X: Copy, E: Reading<X, M::Item>>(
    behind: &M::Item,
    head: usize,
    lengths: &[i32],
    a: &[X],
    out: &mut [M::Item],
) -> Result<(), Fault>
    requires behind { IsTrue (M.is_item behind.now) }
    requires items { AllPass (λ x. M.is_item (E.item x)) a.now }
    ensures { Fills (in_limit a.now (by_segments lengths.now (λ d.
        part_reduces_of M.join M.unit behind.now head d (map E.item a.now)))) result out.old out.new }
{
    check_limit(a)?;
    let d = segments(lengths)?;
    part_reduces_over::<M, X, E>(*behind, head, &d, a, out)
}

/// [`reduce_over`] of elements that are the items.
fn reduce_items_over<M: Monoid>(
    behind: &M::Item,
    head: usize,
    lengths: &[i32],
    a: &[M::Item],
    out: &mut [M::Item],
) -> Result<(), Fault>
    requires behind { IsTrue (M.is_item behind.now) }
    requires items { AllPass M.is_item a.now }
    ensures { Fills (in_limit a.now (by_segments lengths.now (λ d. part_reduces_of M.join M.unit behind.now head d a.now)))
        result out.old out.new }
{
    reduce_over::<M, M::Item, Itself>(behind, head, lengths, a, out)
}

/// The same as [`part_int_reduce`]. Its contract names the integer itself; the contract of a call by value names the number of
/// its word.
fn part_int_reduce_ref(
    op: u32,
    behind: &i32,
    head: usize,
    lengths: &[i32],
    a: &[i32],
    out: &mut [i32],
) -> Result<(), Fault>
    ensures { Fills (part_int_reduce_by op behind.now head lengths.now a.now) result out.old out.new }
{
    let op = operator_of::<IntMonoid>(op)?;
    know_numbers(&[*behind]);
    know_numbers(a);
    by_int_monoid!(op, reduce_items_over::<_>(behind, head, lengths, a, out))
}

/// The reduces of the segments that start in a part of integers, by operator number `op`: the first `head` integers go on from a
/// segment before the part; the others are those of segments with these lengths, the last of which may be longer than the part
/// and is joined with `behind`. `LengthMismatch` if the part has not so many integers, or the room not one place for each length.
pub fn part_int_reduce(
    op: u32,
    behind: i32,
    head: usize,
    lengths: &[i32],
    a: &[i32],
    out: &mut [i32],
) -> Result<(), Fault>
    ensures { Fills (part_int_reduce_by op behind head lengths.now a.now) result out.old out.new }
{
    part_int_reduce_ref(op, &behind, head, lengths, a, out)
}

/// The reduces of the segments that start in a part of flags by operator number `op`, as [`part_int_reduce`]. A byte that is not
/// 0 is true.
pub fn part_bool_reduce(
    op: u32,
    behind: bool,
    head: usize,
    lengths: &[i32],
    a: &[u8],
    out: &mut [bool],
) -> Result<(), Fault>
    ensures { Fills (part_bool_reduce_by op behind head lengths.now a.now) result out.old out.new }
{
    let op = operator_of::<BoolBinary>(op)?;
    by_bool_binary!(
        op,
        reduce_over::<_, u8, TrueByte>(&behind, head, lengths, a, out)
    )
}

/// The same as [`part_count`], by reference for the reason of `part_int_reduce_ref`.
fn part_count_ref(
    behind: &i32,
    head: usize,
    lengths: &[i32],
    flags: &[u8],
    out: &mut [i32],
) -> Result<(), Fault>
    ensures { Fills (part_count_of behind.now head lengths.now flags.now) result out.old out.new }
{
    know_numbers(&[*behind]);
    reduce_over::<monoids::Add, u8, OneIfTrue>(behind, head, lengths, flags, out)
}

/// How many flags are true in each segment that starts in a part, cut as for [`part_int_reduce`]. `behind` is the count of what
/// goes on of the last segment behind the part, and is added to its count.
pub fn part_count(
    behind: i32,
    head: usize,
    lengths: &[i32],
    flags: &[u8],
    out: &mut [i32],
) -> Result<(), Fault>
    ensures { Fills (part_count_of behind head lengths.now flags.now) result out.old out.new }
{
    part_count_ref(&behind, head, lengths, flags, out)
}

/// What goes on behind each part of integers by operator number `op`, as [`seg_behinds`].
pub fn int_behinds(op: u32, starts: &[bool], told: &[i32], out: &mut [i32]) -> Result<(), Fault>
    ensures { Fills (int_behinds_by op starts.now told.now) result out.old out.new }
{
    let op = operator_of::<IntMonoid>(op)?;
    know_numbers(told);
    by_int_monoid!(op, seg_behinds::<_>(starts, told, out))
}

/// What goes on behind each part of booleans by operator number `op`, as [`seg_behinds`].
pub fn bool_behinds(op: u32, starts: &[bool], told: &[bool], out: &mut [bool]) -> Result<(), Fault>
    ensures { Fills (bool_behinds_by op starts.now told.now) result out.old out.new }
{
    let op = operator_of::<BoolBinary>(op)?;
    by_bool_binary!(op, seg_behinds::<_>(starts, told, out))
}
