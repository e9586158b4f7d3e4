//! Texts in parts: each part writes its own text, or reads its own integers, into its range of a memory for all, and they are
//! then put one behind another in one room. Only `bindings/c/steps.c` calls these.

ghost use Rattle.std.specs.Prelude.{◌≡◌, length};
ghost use Rattle.c_calls.specs.Told.{RoomTold, Told};
ghost use Rattle.part_records.specs.Places.{fitted, layout, layout_or};
ghost use Rattle.text_parts.specs.Pieces.{first_of, put_text_of};
ghost use Rattle.text_parts.specs.Places.{size_layout_by, text_layout_by};
ghost use Rattle.text_parts.specs.Rooms.{boolean_bytes, integer_bytes, read_rooms_by, text_rooms_by};

use c_calls::status::{CvlStatus, told_one, told_over};
use text_parts::rooms::{BOOLEAN_BYTES, INTEGER_BYTES};
use text_parts::{put_front, put_text, read_rooms, size_places, text_places, text_rooms};

/// Once: where the text of each part's integers begins, each as long as it can be, at last where the last one ends. `starts` and
/// `firsts` have how many elements and segments stand before each part, and at last how many there are.
#[unsafe(no_mangle)]
pub extern "C" fn cvl_proved_int_text_rooms(
    starts: &[usize],
    firsts: &[usize],
    rooms: &mut [usize],
) -> CvlStatus
    ensures { RoomTold (text_rooms_by integer_bytes starts.now firsts.now) result rooms.old rooms.new }
{
    told_over::<usize>(text_rooms(INTEGER_BYTES, starts, firsts, rooms))
}

/// Once: where the text of each part's booleans begins, as `cvl_proved_int_text_rooms`.
#[unsafe(no_mangle)]
pub extern "C" fn cvl_proved_bool_text_rooms(
    starts: &[usize],
    firsts: &[usize],
    rooms: &mut [usize],
) -> CvlStatus
    ensures { RoomTold (text_rooms_by boolean_bytes starts.now firsts.now) result rooms.old rooms.new }
{
    told_over::<usize>(text_rooms(BOOLEAN_BYTES, starts, firsts, rooms))
}

/// Once: where the piece of each part begins in the text of all, at last where that ends, and how many bytes it has. `counts` has
/// the lengths of the parts' own texts. `LengthMismatch`, without a place, if it has more than `room`, the places of the room.
#[unsafe(no_mangle)]
pub extern "C" fn cvl_proved_text_places(
    counts: &[usize],
    room: usize,
    places: &mut [usize],
    total: &mut usize,
) -> CvlStatus
    ensures answer { Told (fitted room (text_layout_by (length places.old) counts.now)) result tt tt }
    ensures told { layout places.new total.new
        ≡ layout_or (layout places.old total.old) (text_layout_by (length places.old) counts.now) }
{
    told_one(text_places(counts, room, places, total), &mut ())
}

/// The piece of a part in the text of all, which begins at `place`, from the first `count` bytes of what the part wrote.
#[unsafe(no_mangle)]
pub extern "C" fn cvl_proved_put_text(
    place: usize,
    count: usize,
    own: &[u8],
    out: &mut [u8],
) -> CvlStatus
    ensures { Told (put_text_of place count own.now (length out.old)) result out.old out.new }
{
    told_over::<u8>(put_text(place, count, own, out))
}

/// Once: where the integers of each part of a text begin, as many as they can be, at last where the last ones end. `from` has
/// where the parts begin, and at last where the text ends.
#[unsafe(no_mangle)]
pub extern "C" fn cvl_proved_read_rooms(from: &[usize], rooms: &mut [usize]) -> CvlStatus
    ensures { RoomTold (read_rooms_by from.now) result rooms.old rooms.new }
{
    told_over::<usize>(read_rooms(from, rooms))
}

/// Once: where the integers of each part go, at last where they end, and how many they are. `counts` has their numbers.
/// `LengthMismatch`, without a place, if they are more than `room`, the places of the room.
#[unsafe(no_mangle)]
pub extern "C" fn cvl_proved_size_places(
    counts: &[usize],
    room: usize,
    places: &mut [usize],
    total: &mut usize,
) -> CvlStatus
    ensures answer { Told (fitted room (size_layout_by (length places.old) counts.now)) result tt tt }
    ensures told { layout places.new total.new
        ≡ layout_or (layout places.old total.old) (size_layout_by (length places.old) counts.now) }
{
    told_one(size_places(counts, room, places, total), &mut ())
}

/// The integers of a part, from the first ones of what the part read.
#[unsafe(no_mangle)]
pub extern "C" fn cvl_proved_put_ints(own: &[i32], out: &mut [i32]) -> CvlStatus
    ensures { Told (first_of (length out.old) own.now) result out.old out.new }
{
    told_over::<i32>(put_front(own, out))
}
