//! Combining permutes into sums of 64 bits.

ghost use Rattle.std.specs.Prelude.{◌+ℤ◌, ◌≤◌, length};
ghost use Rattle.std.specs.List.{AllPass};
ghost use Rattle.cvl_base.specs.Limits.{most_places};
ghost use Rattle.cvl_base.specs.Rooms.{Overwrites};
ghost use Rattle.combining_permutes.specs.CombiningPermutes.{combine_of, seg_combine_of};
ghost use Rattle.exact_combines.specs.ExactCombines.{exact_sums_of, seg_exact_sums_of};
ghost use Rattle.long_sums.specs.LongSums.{may_grow};

use crate::readings::{Widened, know_longs};
use combining_permutes::{combine_over, seg_combine_over};
use cvl_base::{Fault, check_agree};
use long_sums::{LongSum, check_growing};
use scan_walks::know_numbers;
use segdes::SegLengths;

/// Adds to sums that may grow the integers that are sent to them.
pub(crate) fn sums_over(source: &[i32], index: &[i32], out: &mut [i64]) -> Result<(), Fault>
    requires in_limit { (length index.now ≤ most_places) × (length out.old ≤ most_places) }
    requires growing { AllPass may_grow out.old }
    ensures { Overwrites (combine_of ◌+ℤ◌ source.now index.now out.old) result out.old out.new }
{
    know_numbers(source);
    know_longs(out);
    combine_over::<LongSum, i32, Widened>(source, index, out)
}

/// The same of each segment, which has a segment of the room.
pub(crate) fn seg_sums_over(
    source: &[i32],
    index: &[i32],
    d: &SegLengths,
    room_d: &SegLengths,
    out: &mut [i64],
) -> Result<(), Fault>
    requires in_limit { length index.now ≤ most_places }
    requires growing { AllPass may_grow out.old }
    ensures { Overwrites (seg_combine_of ◌+ℤ◌ source.now index.now d.now room_d.now out.old) result out.old out.new }
{
    know_numbers(source);
    know_longs(out);
    seg_combine_over::<LongSum, i32, Widened>(source, index, d, room_d, out)
}

/// Adds to each sum of the room, of 64 bits, the integers whose index names its place: the sum stays exact.
///
/// `LengthMismatch`, without a place, if there are more or fewer indices than integers; `Overflow` at the first sum of the room
/// that was below -2^62, or 2^62 or more, from which 2,147,483,647 integers could leave 64 bits; `IndexOutOfRange` at the first
/// index that is no place of the room. At a fault the room is as it was. It has at most 2,147,483,647 places, and there are at
/// most as many integers. Source: Blelloch's combining send, over whole numbers.
pub fn exact_sums_over(source: &[i32], index: &[i32], out: &mut [i64]) -> Result<(), Fault>
    requires in_limit { (length index.now ≤ most_places) × (length out.old ≤ most_places) }
    ensures { Overwrites (exact_sums_of source.now index.now out.old) result out.old out.new }
{
    check_agree(source.len(), index.len())?;
    check_growing(out, 0)?;
    sums_over(source, index, out)
}

/// The same of each segment: an index counts from the start of its segment of the room.
///
/// `Overflow` at the first sum of the room that was below -2^62, or 2^62 or more; else the faults of a combining permute of
/// segments. The room has at most 2,147,483,647 places, and there are at most as many integers. Source: Blelloch's combining send
/// over whole numbers, CVL's segmented permutes.
pub fn seg_exact_sums_over(
    source: &[i32],
    index: &[i32],
    d: &SegLengths,
    room_d: &SegLengths,
    out: &mut [i64],
) -> Result<(), Fault>
    requires in_limit { (length index.now ≤ most_places) × (length out.old ≤ most_places) }
    ensures { Overwrites (seg_exact_sums_of source.now index.now d.now room_d.now out.old) result out.old out.new }
{
    check_growing(out, 0)?;
    seg_sums_over(source, index, d, room_d, out)
}
