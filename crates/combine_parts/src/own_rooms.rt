//! The rooms of the parts' own: where they begin, and what each part joins in its own.

ghost use Rattle.std.specs.Prelude.{◌≡◌, ◌+ℤ◌, ◌*◌, ◌<◌, ◌≤◌, Err, Ok, length, map, pos, replicate, MatchResult};
ghost use Rattle.std.specs.List.{AllPass, range_with_len};
ghost use Rattle.combine_parts.specs.OwnRooms.{MakesOwn, may_own, own_counts_of, own_room_of, own_rooms_of};
ghost use Rattle.combining_permutes.specs.CombiningPermutes.{combine_of};
ghost use Rattle.cvl_base.specs.declared.fault.FaultNo.TheVariants as no;
ghost use Rattle.cvl_base.specs.Faults.{fault};
ghost use Rattle.cvl_base.specs.Limits.{most_places};
ghost use Rattle.cvl_base.specs.Rooms.{Overwrites};

use combining_permutes::{combine_over, counts_over};
use cvl_base::limits::MOST_PLACES;
use cvl_base::monoid::know_laws;
use cvl_base::{Fault, FaultNo, Monoid, check_agree};
use exact_combines::exact_sums_over;
use scan_walks::Reading;

/// Checks that there are at most 2,147,483,647, else `TooLong`, without a place.
pub(crate) fn check_few(count: usize) -> Result<(), Fault>
    ensures { MatchResult result (λ _. count ≤ most_places) (λ f. (f ≡ fault no.TooLong) × (most_places < count)) }
{
    if count > MOST_PLACES {
        return Err(Fault::new(FaultNo::TooLong));
    }
    Ok(())
}

/// Writes where the room of each part begins, if each has so many places: so far behind the one before that no two parts write
/// to one line of a cache.
///
/// `TooLong`, without a place, if there are more than 2,147,483,647 places or rooms; nothing is written then.
pub fn begin_rooms(places: usize, rooms: &mut [usize]) -> Result<(), Fault>
    ensures { Overwrites (own_rooms_of places (length rooms.old)) result rooms.old rooms.new }
{
    check_few(places)?;
    check_few(rooms.len())?;
    write_starts((places + 255) / 128 * 128, rooms);
    Ok(())
}

/// Writes where rooms begin that are so far from one another.
fn write_starts(distance: usize, rooms: &mut [usize])
    requires distance { distance ≤ 2147483904 }
    requires few { length rooms.old ≤ most_places }
    ensures { rooms.new ≡ map (λ k. k * distance) (range_with_len 0 (length rooms.old)) }
{
    for k in 0..rooms.len() {
        rooms[k] = k * distance;
    }
}

/// Checks that a part with so many elements and indices may have a room of so many places in its memory, which is so long:
/// `TooLong`, without a place, if there are more than 2,147,483,647 indices or places; `LengthMismatch`, without a place, if
/// there are not as many indices as elements, or if the memory is shorter than the room.
fn check_own(places: usize, elements: usize, indices: usize, memory: usize) -> Result<(), Fault>
    ensures answer { result ≡ may_own places elements indices memory }
    ensures fits { MatchResult result
        (λ _. (indices ≤ most_places) × (places ≤ most_places) × (elements ≡ indices) × (places ≤ memory)) (λ _. Unit {0}) }
{
    check_few(indices)?;
    check_few(places)?;
    check_agree(elements, indices)?;
    if memory < places {
        return Err(Fault::new(FaultNo::LengthMismatch));
    }
    Ok(())
}

/// Joins a part's elements, as they are read, in its own room, whatever stood there: at each place what the operator gives of
/// nothing, joined with the elements that are sent there, in their order. The room is the first places of the memory; what is
/// behind them stays.
///
/// `TooLong`, without a place, if there are more than 2,147,483,647 indices or places; `LengthMismatch`, without a place, if
/// there are not as many indices as elements, or if the memory is shorter than the room; the memory is then as before.
/// `IndexOutOfRange` at the first index that is none of the places; the room may then hold anything. What the elements are read
/// as must be items of the monoid. Source: Blelloch's combining send.
pub fn own_room<M: Monoid, X: Copy, E: Reading<X, M::Item>>(
    places: usize,
    source: &[X],
    index: &[i32],
    memory: &mut [M::Item],
) -> Result<(), Fault>
    requires { AllPass (λ x. M.is_item (E.item x)) source.now }
    ensures { MakesOwn places (own_room_of M.join M.unit places (length memory.old) (map E.item source.now) index.now)
        result memory.old memory.new }
{
    check_own(places, source.len(), index.len(), memory.len())?;
    let (room, _behind) = memory.split_at_mut(places);
    join_own::<M, X, E>(source, index, room)
}

/// Fills a room by copies of a value.
fn fill_by<T: Copy>(value: T, room: &mut [T])
    ensures { room.new ≡ replicate (length room.old) value }
{
    for place in 0..room.len() {
        room[place] = value;
    }
}

/// Joins elements in a room that holds at first what the operator gives of nothing.
fn join_own<M: Monoid, X: Copy, E: Reading<X, M::Item>>(
    source: &[X],
    index: &[i32],
    room: &mut [M::Item],
) -> Result<(), Fault>
    requires in_limit { (length index.now ≤ most_places) × (length room.old ≤ most_places) }
    requires elements { AllPass (λ x. M.is_item (E.item x)) source.now }
    ensures { MatchResult result
        (λ _. combine_of M.join (map E.item source.now) index.now (replicate (length room.old) M.unit) ≡ Ok room.new)
        (λ f. combine_of M.join (map E.item source.now) index.now (replicate (length room.old) M.unit) ≡ Err f) }
{
    know_laws::<M>();
    fill_by(M::unit(), room);
    combine_over::<M, X, E>(source, index, room)
}

/// Counts in a part's own room how many of its indices name each place, whatever stood there. Its faults are those of
/// [`own_room`].
pub fn own_counts(places: usize, index: &[i32], memory: &mut [i32]) -> Result<(), Fault>
    ensures { MakesOwn places (own_counts_of places (length memory.old) index.now) result memory.old memory.new }
{
    check_own(places, index.len(), index.len(), memory.len())?;
    let (room, _behind) = memory.split_at_mut(places);
    counts_over(index, room)
}

/// Adds up a part's integers in its own room, in 64 bits, whatever stood there: at each place those that are sent there. Its
/// faults are those of [`own_room`].
pub fn own_sums(
    places: usize,
    source: &[i32],
    index: &[i32],
    memory: &mut [i64],
) -> Result<(), Fault>
    ensures { MakesOwn places (own_room_of ◌+ℤ◌ (pos 0) places (length memory.old) source.now index.now)
        result memory.old memory.new }
{
    check_own(places, source.len(), index.len(), memory.len())?;
    let (room, _behind) = memory.split_at_mut(places);
    add_own(source, index, room)
}

/// Adds integers up in a room that holds zeros at first.
fn add_own(source: &[i32], index: &[i32], room: &mut [i64]) -> Result<(), Fault>
    requires in_limit { (length index.now ≤ most_places) × (length room.old ≤ most_places) }
    ensures { MatchResult result
        (λ _. combine_of ◌+ℤ◌ source.now index.now (replicate (length room.old) (pos 0)) ≡ Ok room.new)
        (λ f. combine_of ◌+ℤ◌ source.now index.now (replicate (length room.old) (pos 0)) ≡ Err f) }
{
    fill_by(0, room);
    exact_sums_over(source, index, room)
}
