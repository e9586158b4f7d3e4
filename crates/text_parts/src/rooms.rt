//! Where each part's text, or its integers, stand in a memory for all, as long as they can be.

ghost use Rattle.std.specs.Prelude.{◌≡◌, ◌≤◌, IsTrue, length, nat_le};
ghost use Rattle.std.specs.List.{list_all};
ghost use Rattle.cvl_base.specs.Limits.{most_places};
ghost use Rattle.cvl_base.specs.Rooms.{Overwrites, in_room};
ghost use Rattle.text_parts.specs.Rooms.{in_limits, integer_bytes, most_bytes};
ghost use Rattle.text_parts.specs.Rooms.{read_rooms_by, read_rooms_of, text_rooms_by, text_rooms_of};

use cvl_base::limits::MOST_PLACES;
use cvl_base::{Fault, FaultNo, check_agree};

/// The most bytes of an integer in a text, with the space or the bracket behind it.
pub const INTEGER_BYTES: usize = 12;

/// The most bytes of a boolean in a text, with the space or the bracket behind it.
pub const BOOLEAN_BYTES: usize = 2;

/// The most bytes that a memory has: 2^63 - 1.
pub const MOST_BYTES: usize = 9_223_372_036_854_775_807;

/// Checks that there are no more numbers than a vector may have elements, and that none is greater than `most`, else `TooLong`,
/// without a place.
fn check_limits(most: usize, numbers: &[usize]) -> Result<(), Fault>
    ensures { result ≡ in_limits most numbers.now }
{
    if numbers.len() > MOST_PLACES || !are_within(most, numbers) {
        return Err(Fault::new(FaultNo::TooLong));
    }
    Ok(())
}

/// Whether no number is greater than `most`.
fn are_within(most: usize, numbers: &[usize]) -> bool
    ensures { result ≡ list_all (λ n. nat_le n most) numbers.now }
{
    numbers.iter().all(|n| *n <= most)
}

/// Writes where the text of each part begins in a memory for all, which has room for the longest texts; and at last where the
/// memory ends. `starts` and `firsts` have how many elements and how many segments stand before each part, and at their end how
/// many there are; an element takes `each` bytes at most, with what stands behind it, as [`INTEGER_BYTES`] or [`BOOLEAN_BYTES`].
///
/// `TooLong`, without a place, if a number is more than a vector may have elements, or there are more numbers than that;
/// `LengthMismatch`, without a place, if there are not as many of the second as of the first, or the room does not have a place
/// for each. The room is then as before. Source: this library's text format.
pub fn text_rooms(
    each: usize,
    starts: &[usize],
    firsts: &[usize],
    rooms: &mut [usize],
) -> Result<(), Fault>
    requires short { each ≤ integer_bytes }
    ensures { Overwrites (in_room (length rooms.old) (text_rooms_by each starts.now firsts.now)) result rooms.old rooms.new }
{
    check_limits(MOST_PLACES, starts)?;
    check_limits(MOST_PLACES, firsts)?;
    check_agree(starts.len(), firsts.len())?;
    check_agree(starts.len(), rooms.len())?;
    write_text_rooms(each, starts, firsts, rooms);
    Ok(())
}

/// Writes where the text of each part begins.
#[inline(never)]
fn write_text_rooms(each: usize, starts: &[usize], firsts: &[usize], rooms: &mut [usize])
    requires short { each ≤ integer_bytes }
    requires few { length starts.now ≤ most_places }
    requires starts { IsTrue (list_all (λ n. nat_le n most_places) starts.now) }
    requires firsts { IsTrue (list_all (λ n. nat_le n most_places) firsts.now) }
    requires as_many { length firsts.now ≡ length starts.now }
    requires room { length rooms.old ≡ length starts.now }
    ensures { rooms.new ≡ text_rooms_of each starts.now firsts.now }
{
    for k in 0..starts.len() {
        rooms[k] = starts[k] * each + firsts[k] * 3 + 2 * k;
    }
}

/// Writes where the integers of each part of a text begin in a memory for all, which has room for as many as the part's bytes can
/// have; and at last where the memory ends. `from` has where the parts begin, and at its end where the last one ends.
///
/// `TooLong`, without a place, if a number is more than 2^63 - 1, or there are more numbers than a vector may have elements;
/// `LengthMismatch`, without a place, if the room does not have a place for each. The room is then as before. Source: this
/// library's input format.
pub fn read_rooms(from: &[usize], rooms: &mut [usize]) -> Result<(), Fault>
    ensures { Overwrites (in_room (length rooms.old) (read_rooms_by from.now)) result rooms.old rooms.new }
{
    check_limits(MOST_BYTES, from)?;
    check_agree(from.len(), rooms.len())?;
    write_read_rooms(from, rooms);
    Ok(())
}

/// Writes where the integers of each part begin.
#[inline(never)]
fn write_read_rooms(from: &[usize], rooms: &mut [usize])
    requires few { length from.now ≤ most_places }
    requires small { IsTrue (list_all (λ n. nat_le n most_bytes) from.now) }
    requires room { length rooms.old ≡ length from.now }
    ensures { rooms.new ≡ read_rooms_of from.now }
{
    for k in 0..from.len() {
        rooms[k] = (from[k] + k) / 2;
    }
}
