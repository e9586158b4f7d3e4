//! Copies of the values of a part's segments.

ghost use Rattle.std.specs.Prelude.{◌≡◌, ◌≢◌, ◌≤◌, drop, length, map, replicate, slice_index_or, sum, take, unsigned_abs};
ghost use Rattle.cvl_base.specs.Descriptors.{AreLengthsWithin};
ghost use Rattle.cvl_base.specs.Limits.{most_places};
ghost use Rattle.cvl_base.specs.Lists.{joined};
ghost use Rattle.cvl_base.specs.Rooms.{Overwrites};
ghost use Rattle.pack_dist.specs.Lists.{copies_of};
ghost use Rattle.segment_fills.specs.Fills.{is_part_with, part_distribute_of};

use crate::fronts::{Copies, EightAtOnce, Fronts, OneByOne};
use cvl_base::{Fault, FaultNo};
use range_walks::are_short_and_uneven;
use segdes::SegLengths;
use segment_parts::is_part;

/// Whether a part with this head and these lengths may have so many elements, and each of its segments has one of so many values.
pub(crate) fn is_part_with(
    head: usize,
    lengths: &SegLengths,
    values: usize,
    elements: usize,
) -> bool
    ensures { result ≡ is_part_with head lengths.now values elements }
{
    is_part(head, lengths, elements) && values == lengths.count() + usize::from(head > 0)
}

/// Writes the values of a part's segments, each as often as the part has elements of the segment. The first `head` elements go on
/// from the open segment, which began before the part; then there are segments with these lengths, the last of which may be
/// longer than what the part has of it. `values` has that of the open segment, if `head` is not 0, and then one for each length.
///
/// `LengthMismatch`, without a place, if there is not one value for each, if `head` and the lengths but the last are more than
/// the elements of the room, or if `head` and all lengths are fewer; the room is then as before. The part has at most
/// 2,147,483,647 elements. It takes no memory. Source: Blelloch's distribute.
pub fn part_copies_over<T: Copy>(
    head: usize,
    lengths: &SegLengths,
    values: &[T],
    out: &mut [T],
) -> Result<(), Fault>
    requires in_limit { length out.old ≤ most_places }
    ensures { Overwrites (part_distribute_of head lengths.now values.now (length out.old)) result out.old out.new }
{
    if !is_part_with(head, lengths, values.len(), out.len()) {
        return Err(Fault::new(FaultNo::LengthMismatch));
    }
    let (open_room, starts_room) = out.split_at_mut(head);
    let others = fill_open(values, open_room);
    fill_starts(lengths.lengths(), others, starts_room);
    Ok(())
}

/// Fills what a part has of its open segment by copies of the first value, and returns the other values; or all, if it has none.
fn fill_open<'a, T: Copy>(values: &'a [T], room: &mut [T]) -> &'a [T]
    requires { length values.now ≡ 0 → length room.old ≡ 0 }
    ensures room { (value : T) → length room.old ≢ 0
        → room.new ≡ replicate (length room.old) (slice_index_or values.now 0 value) }
    ensures none { length room.old ≡ 0 → (room.new ≡ room.old) × (result.now ≡ values.now) }
    ensures others { length room.old ≢ 0 → result.now ≡ drop 1 values.now }
{
    if room.is_empty() {
        return values;
    }
    let (_open, others) = values.split_at(1);
    fill_by(values[0], room);
    others
}

/// Fills a room by copies of a value.
fn fill_by<T: Copy>(value: T, room: &mut [T])
    ensures { room.new ≡ replicate (length room.old) value }
{
    for k in 0..room.len() {
        room[k] = value;
    }
}

/// Fills a room by a value for each of these lengths, as often as the length says, up to the end of the room.
pub(crate) fn fill_starts<T: Copy>(lengths: &[i32], values: &[T], room: &mut [T])
    requires lengths { AreLengthsWithin most_places lengths.now }
    requires one_each { length values.now ≡ length lengths.now }
    requires covered { length room.old ≤ sum (map unsigned_abs lengths.now) }
    requires fits { length room.old ≤ most_places }
    ensures { room.new ≡ take (length room.old) (joined (copies_of values.now (map unsigned_abs lengths.now))) }
{
    if are_short_and_uneven(lengths, room.len()) {
        copies_by::<T, EightAtOnce>(lengths, values, room);
    } else {
        copies_by::<T, OneByOne>(lengths, values, room);
    }
}

/// The same, each segment in this way.
#[inline(never)]
fn copies_by<T: Copy, W: Fronts>(lengths: &[i32], values: &[T], room: &mut [T])
    requires lengths { AreLengthsWithin most_places lengths.now }
    requires one_each { length values.now ≡ length lengths.now }
    requires covered { length room.old ≤ sum (map unsigned_abs lengths.now) }
    requires fits { length room.old ≤ most_places }
    ensures { room.new ≡ take (length room.old) (joined (copies_of values.now (map unsigned_abs lengths.now))) }
{
    let mut first = 0;
    for s in 0..lengths.len() {
        let end = (first + lengths[s] as usize).min(room.len());
        W::write(room, first, end, &Copies { value: values[s] });
        first = end;
    }
}
