//! Combining permutes, counts and exact sums by place in parts: only `bindings/c/steps.c` calls these.
//!
//! If there are few places, each part joins its elements in a room of its own, and each share of the caller's room, from place
//! `from` on, is joined with the same places of all rooms, in the order of the parts. The rooms stand in one memory, `own`;
//! room j begins at `rooms[j]`, and at the last of `rooms` they end. If there are many places, each part owns a range of them
//! and reads all indices.

ghost use Rattle.std.specs.Prelude.{◌≡◌, ◌+ℤ◌, ℕ, List, Result, length, pos};
ghost use Rattle.c_calls.specs.Told.{Told};
ghost use Rattle.combine_parts.specs.Calls.{joined_bools_by, joined_ints_by, own_bool_room_by, own_int_room_by};
ghost use Rattle.combine_parts.specs.CheckedSums.{all_fit, range_sums_of, share_sums_of, sums_or};
ghost use Rattle.combine_parts.specs.Cuts.{CutTold, are_places_of, may_cut};
ghost use Rattle.combine_parts.specs.OwnRooms.{MakesOwn, OwnTold, own_counts_of, own_room_of, own_rooms_of};
ghost use Rattle.combine_parts.specs.RoomJoins.{joined_counts_of, joined_share_of};
ghost use Rattle.cvl_base.specs.declared.fault.Fault.{Fault};
ghost use Rattle.long_sums.specs.LongSums.{long_sum_of};

use c_calls::status::{CvlStatus, done, status_of, told_one, told_over};
use combine_parts::calls::{join_bools, join_ints, own_bool_room, own_int_room};
use combine_parts::{
    are_places, begin_rooms, cut_places, join_counts, join_share, own_counts, own_sums, range_sums,
    share_sums,
};
use cvl_base::Fault;
use long_sums::LongSum;

/// The status of a call that makes a part's own room.
fn told_own<T>(answer: Result<(), Fault>) -> CvlStatus
    ensures { (places : ℕ) (meaning : Result (List T) Fault) (before now : List T)
        → MakesOwn places meaning answer before now → OwnTold places meaning result before now }
{
    match answer {
        Ok(()) => done(),
        Err(fault) => status_of(fault.into()),
    }
}

/// Where the room of each part begins in a memory, if each has so many places.
#[unsafe(no_mangle)]
pub extern "C" fn cvl_proved_own_rooms(places: usize, rooms: &mut [usize]) -> CvlStatus
    ensures { Told (own_rooms_of places (length rooms.old)) result rooms.old rooms.new }
{
    told_over::<usize>(begin_rooms(places, rooms))
}

/// A part's integers, joined at each place of a room of its own with what the operator gives of nothing.
#[unsafe(no_mangle)]
pub extern "C" fn cvl_proved_part_combine_int(
    op: u32,
    places: usize,
    a: &[i32],
    index: &[i32],
    own: &mut [i32],
) -> CvlStatus
    ensures { OwnTold places (own_int_room_by op places (length own.old) a.now index.now) result own.old own.new }
{
    told_own::<i32>(own_int_room(op, places, a, index, own))
}

/// The same of booleans.
#[unsafe(no_mangle)]
pub extern "C" fn cvl_proved_part_combine_bool(
    op: u32,
    places: usize,
    a: &[bool],
    index: &[i32],
    own: &mut [bool],
) -> CvlStatus
    ensures { OwnTold places (own_bool_room_by op places (length own.old) a.now index.now) result own.old own.new }
{
    told_own::<bool>(own_bool_room(op, places, a, index, own))
}

/// How many of a part's indices name each place of a room of its own.
#[unsafe(no_mangle)]
pub extern "C" fn cvl_proved_part_counts(places: usize, index: &[i32], own: &mut [i32]) -> CvlStatus
    ensures { OwnTold places (own_counts_of places (length own.old) index.now) result own.old own.new }
{
    told_own::<i32>(own_counts(places, index, own))
}

/// A part's integers, added up at each place of a room of its own, in 64 bits.
#[unsafe(no_mangle)]
pub extern "C" fn cvl_proved_part_sums(
    places: usize,
    a: &[i32],
    index: &[i32],
    own: &mut [i64],
) -> CvlStatus
    ensures { OwnTold places (own_room_of ◌+ℤ◌ (pos 0) places (length own.old) a.now index.now) result own.old own.new }
{
    told_own::<i64>(own_sums(places, a, index, own))
}

/// A share of the caller's integers, joined with the rooms of all parts.
#[unsafe(no_mangle)]
pub extern "C" fn cvl_proved_join_rooms_int(
    op: u32,
    from: usize,
    rooms: &[usize],
    own: &[i32],
    out: &mut [i32],
) -> CvlStatus
    ensures { Told (joined_ints_by op from rooms.now own.now out.old) result out.old out.new }
{
    told_over::<i32>(join_ints(op, from, rooms, own, out))
}

/// A share of the caller's booleans, joined with the rooms of all parts.
#[unsafe(no_mangle)]
pub extern "C" fn cvl_proved_join_rooms_bool(
    op: u32,
    from: usize,
    rooms: &[usize],
    own: &[bool],
    out: &mut [bool],
) -> CvlStatus
    ensures { Told (joined_bools_by op from rooms.now own.now out.old) result out.old out.new }
{
    told_over::<bool>(join_bools(op, from, rooms, own, out))
}

/// The counts of all parts, added up in a share of the caller's room, whatever stood there.
#[unsafe(no_mangle)]
pub extern "C" fn cvl_proved_join_counts(
    from: usize,
    rooms: &[usize],
    own: &[i32],
    out: &mut [i32],
) -> CvlStatus
    ensures { Told (joined_counts_of from rooms.now own.now (length out.old)) result out.old out.new }
{
    told_over::<i32>(join_counts(from, rooms, own, out))
}

/// A share of the caller's sums, to which those of all parts are added, wrapped to 64 bits.
#[unsafe(no_mangle)]
pub extern "C" fn cvl_proved_join_sums(
    from: usize,
    rooms: &[usize],
    own: &[i64],
    out: &mut [i64],
) -> CvlStatus
    ensures { Told (joined_share_of long_sum_of from rooms.now own.now out.old) result out.old out.new }
{
    told_over::<i64>(join_share::<LongSum, i64>(from, rooms, own, out))
}

/// A share of the caller's integers plus the sums of all parts, in 64 bits. The answer says whether all of them fit 32 bits; they
/// stand there even if they do not.
#[unsafe(no_mangle)]
pub extern "C" fn cvl_proved_join_checked(
    from: usize,
    rooms: &[usize],
    own: &[i64],
    before: &[i32],
    sums: &mut [i64],
) -> CvlStatus
    ensures answer { Told (all_fit (share_sums_of from rooms.now own.now before.now (length sums.old))) result tt tt }
    ensures sums { sums.new ≡ sums_or sums.old (share_sums_of from rooms.now own.now before.now (length sums.old)) }
{
    told_one(share_sums(from, rooms, own, before, sums), &mut ())
}

/// Whether each index is one of so many places.
#[unsafe(no_mangle)]
pub extern "C" fn cvl_proved_are_places(places: usize, index: &[i32]) -> CvlStatus
    ensures { Told (are_places_of places index.now) result tt tt }
{
    told_one(are_places(places, index), &mut ())
}

/// Where so many places are cut into ranges, one for each part, so that about as many elements are sent to each.
#[unsafe(no_mangle)]
pub extern "C" fn cvl_proved_cut_places(
    index: &[i32],
    places: usize,
    cuts: &mut [usize],
) -> CvlStatus
    ensures { CutTold (may_cut (length cuts.old)) places result cuts.old cuts.new }
{
    match cut_places(index, places, cuts) {
        Ok(()) => done(),
        Err(fault) => status_of(fault.into()),
    }
}

/// A range of the caller's integers, from place `from` on, plus the integers that are sent there, in 64 bits. The answer says
/// whether all of them fit 32 bits; they stand there even if they do not.
#[unsafe(no_mangle)]
pub extern "C" fn cvl_proved_part_checked_sums(
    from: usize,
    a: &[i32],
    index: &[i32],
    before: &[i32],
    sums: &mut [i64],
) -> CvlStatus
    ensures answer { Told (all_fit (range_sums_of a.now index.now from before.now (length sums.old))) result tt tt }
    ensures sums { sums.new ≡ sums_or sums.old (range_sums_of a.now index.now from before.now (length sums.old)) }
{
    told_one(range_sums(from, a, index, before, sums), &mut ())
}
