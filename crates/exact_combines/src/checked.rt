//! Combining permutes into integers, by sums that have to fit 32 bits at the end. They are made in 64 bits, in memory of the
//! call's own, and written once all of them fit.

ghost use Rattle.std.specs.Prelude.{◌≡◌, ◌≤◌, IfOk, length};
ghost use Rattle.std.specs.List.{AllPass};
ghost use Rattle.cvl_base.specs.Limits.{most_places};
ghost use Rattle.cvl_base.specs.Rooms.{OverwritesOr};
ghost use Rattle.exact_combines.specs.ExactCombines.{checked_combine_of, seg_checked_combine_of};
ghost use Rattle.long_sums.specs.LongSums.{may_grow};

use crate::exact::{seg_sums_over, sums_over};
use cvl_base::{NoResources, Refused};
use long_sums::{check_fitting, write_ints, write_sums};
use scan_walks::know_numbers;
use segdes::SegLengths;
use std::alloc::Allocator;

/// Integers as sums of 64 bits, each of which may grow.
pub(crate) fn widened<A: Allocator>(alloc: A, a: &[i32]) -> Result<Vec<i64, A>, NoResources>
    ensures same { IfOk result (λ sums. sums.items ≡ a.now) }
    ensures growing { IfOk result (λ sums. AllPass may_grow sums.items) }
{
    know_numbers(a);
    let mut sums = vec![in alloc; 0; a.len()]?;
    write_sums(a, &mut sums);
    Ok(sums)
}

/// Adds to each integer of the room those whose index names its place, without wrapping.
///
/// `LengthMismatch`, without a place, if there are more or fewer indices than integers; `IndexOutOfRange` at the first index that
/// is no place of the room; `Overflow` at the first place of the room whose sum does not fit 32 bits. At a fault, and without
/// memory, the room is as it was. It has at most 2,147,483,647 places, and there are at most as many integers. Source: Blelloch's
/// combining send, over whole numbers.
pub fn checked_combine_over<A: Allocator>(
    alloc: A,
    source: &[i32],
    index: &[i32],
    out: &mut [i32],
) -> Result<(), Refused>
    requires in_limit { (length index.now ≤ most_places) × (length out.old ≤ most_places) }
    ensures { OverwritesOr (checked_combine_of source.now index.now out.old) result out.old out.new }
{
    let mut sums = widened(alloc, out)?;
    sums_over(source, index, &mut sums)?;
    check_fitting(&sums, 0)?;
    write_ints(&sums, out);
    Ok(())
}

/// The same of each segment: an index counts from the start of its segment of the room.
///
/// The faults of a combining permute of segments come first, and then `Overflow` at the first place of the room whose sum does
/// not fit 32 bits. The room has at most 2,147,483,647 places, and there are at most as many integers. Source: Blelloch's
/// combining send over whole numbers, CVL's segmented permutes.
pub fn seg_checked_combine_over<A: Allocator>(
    alloc: A,
    source: &[i32],
    index: &[i32],
    d: &SegLengths,
    room_d: &SegLengths,
    out: &mut [i32],
) -> Result<(), Refused>
    requires in_limit { (length index.now ≤ most_places) × (length out.old ≤ most_places) }
    ensures { OverwritesOr (seg_checked_combine_of source.now index.now d.now room_d.now out.old) result out.old out.new }
{
    let mut totals = widened(alloc, out)?;
    seg_sums_over(source, index, d, room_d, &mut totals)?;
    check_fitting(&totals, 0)?;
    write_ints(&totals, out);
    Ok(())
}
