//! Numbers of a part's segments, from a first one on in equal steps.

ghost use Rattle.std.specs.Prelude.{◌≡◌, ◌≢◌, ◌≤◌, ◌<◌, ◌^◌, drop, length, map, pos, slice_index_or};
ghost use Rattle.std.specs.Prelude.{sum, take, unsigned_abs};
ghost use Rattle.cvl_base.specs.Descriptors.{AreLengthsWithin};
ghost use Rattle.cvl_base.specs.Limits.{most_places};
ghost use Rattle.cvl_base.specs.Lists.{joined};
ghost use Rattle.cvl_base.specs.Rooms.{Overwrites};
ghost use Rattle.pack_dist.specs.Lists.{progressions_of};
ghost use Rattle.pack_dist.specs.Progressions.{numbers_from};
ghost use Rattle.segment_fills.specs.Numbers.{numbers_after_of, part_index_of};

use crate::copies::is_part_with;
use crate::fronts::{EightAtOnce, Fronts, OneByOne, Steps};
use cvl_base::limits::MOST_PLACES;
use cvl_base::{Fault, FaultNo};
use range_walks::are_short_and_uneven;
use segdes::SegLengths;

/// Writes the numbers of a part's segments: those of a segment begin with its init and go on in steps of its stride, each wrapped
/// to 32 bits. The part is cut as for [`part_copies_over`](crate::part_copies_over). `done` is how many elements its open segment
/// has before the part, and counts only if `head` is not 0; `inits` and `strides` have those of the open segment, if `head` is
/// not 0, and then one for each length.
///
/// `TooLong`, without a place, if `done` and `head` are together more than 2,147,483,647. `LengthMismatch`, without a place, if
/// there are not one init and one stride for each segment, if `head` and the lengths but the last are more than the elements of
/// the room, or if `head` and all lengths are fewer. The room is then as before. The part has at most 2,147,483,647 elements. It
/// takes no memory. Source: CVL's index.
pub fn part_numbers_over(
    done: usize,
    head: usize,
    lengths: &SegLengths,
    inits: &[i32],
    strides: &[i32],
    out: &mut [i32],
) -> Result<(), Fault>
    requires in_limit { length out.old ≤ most_places }
    ensures { Overwrites (part_index_of done head lengths.now inits.now strides.now (length out.old)) result out.old out.new }
{
    if done > MOST_PLACES || head > MOST_PLACES - done {
        return Err(Fault::new(FaultNo::TooLong));
    }
    if strides.len() != inits.len() || !is_part_with(head, lengths, inits.len(), out.len()) {
        return Err(Fault::new(FaultNo::LengthMismatch));
    }
    let (open_room, starts_room) = out.split_at_mut(head);
    number_open(done, inits, strides, open_room);
    let (inits, strides) = (behind_open(head, inits), behind_open(head, strides));
    number_starts(lengths.lengths(), inits, strides, starts_room);
    Ok(())
}

/// Writes the numbers of an index behind its first `before`, which stand in the parts before; each is wrapped to 32 bits.
///
/// `TooLong`, without a place, if `before` and the elements of the room are together more than 2,147,483,647; the room is then
/// as before. It takes no memory. Source: CVL's index.
pub fn numbers_after_over(
    before: usize,
    init: i32,
    stride: i32,
    out: &mut [i32],
) -> Result<(), Fault>
    ensures { Overwrites (numbers_after_of before init stride (length out.old)) result out.old out.new }
{
    if before > MOST_PLACES || out.len() > MOST_PLACES - before {
        return Err(Fault::new(FaultNo::TooLong));
    }
    number_by(&init, &stride, before, out);
    Ok(())
}

/// What stands behind that of the open segment; or all, if the part has none.
fn behind_open(head: usize, values: &[i32]) -> &[i32]
    requires { head ≢ 0 → 0 < length values.now }
    ensures none { head ≡ 0 → result.now ≡ values.now }
    ensures some { head ≢ 0 → result.now ≡ drop 1 values.now }
{
    if head == 0 {
        return values;
    }
    let (_open, others) = values.split_at(1);
    others
}

/// Writes what a part has of the open segment's numbers, from place `done` of the segment on.
fn number_open(done: usize, inits: &[i32], strides: &[i32], room: &mut [i32])
    requires few { done < 2 ^ 31 }
    requires inits { length room.old ≢ 0 → 0 < length inits.now }
    requires strides { length room.old ≢ 0 → 0 < length strides.now }
    ensures { room.new ≡ numbers_from (slice_index_or inits.now 0 (pos 0)) (slice_index_or strides.now 0 (pos 0)) done
        (length room.old) }
{
    if room.is_empty() {
        return;
    }
    number_by(&inits[0], &strides[0], done, room);
}

/// Fills a room by numbers in equal steps, beginning with the one at place `from`.
fn number_by(init: &i32, stride: &i32, from: usize, room: &mut [i32])
    requires { from < 2 ^ 31 }
    ensures { room.new ≡ numbers_from init.now stride.now from (length room.old) }
{
    // read once, since the loop writes memory
    let step = *stride;
    let mut next = (from as i32).wrapping_mul(step).wrapping_add(*init);
    for k in 0..room.len() {
        room[k] = next;
        next = next.wrapping_add(step);
    }
}

/// Fills a room by the numbers of each segment with these lengths, up to the end of the room.
pub(crate) fn number_starts(lengths: &[i32], inits: &[i32], strides: &[i32], room: &mut [i32])
    requires lengths { AreLengthsWithin most_places lengths.now }
    requires inits { length inits.now ≡ length lengths.now }
    requires strides { length strides.now ≡ length lengths.now }
    requires covered { length room.old ≤ sum (map unsigned_abs lengths.now) }
    requires fits { length room.old ≤ most_places }
    ensures { room.new
        ≡ take (length room.old) (joined (progressions_of inits.now strides.now (map unsigned_abs lengths.now))) }
{
    if are_short_and_uneven(lengths, room.len()) {
        numbers_by::<EightAtOnce>(lengths, inits, strides, room);
    } else {
        numbers_by::<OneByOne>(lengths, inits, strides, room);
    }
}

/// The same, each segment in this way.
#[inline(never)]
fn numbers_by<W: Fronts>(lengths: &[i32], inits: &[i32], strides: &[i32], room: &mut [i32])
    requires lengths { AreLengthsWithin most_places lengths.now }
    requires inits { length inits.now ≡ length lengths.now }
    requires strides { length strides.now ≡ length lengths.now }
    requires covered { length room.old ≤ sum (map unsigned_abs lengths.now) }
    requires fits { length room.old ≤ most_places }
    ensures { room.new
        ≡ take (length room.old) (joined (progressions_of inits.now strides.now (map unsigned_abs lengths.now))) }
{
    let mut first = 0;
    for s in 0..lengths.len() {
        let end = (first + lengths[s] as usize).min(room.len());
        W::write(room, first, end, &Steps::of(&inits[s], &strides[s]));
        first = end;
    }
}
