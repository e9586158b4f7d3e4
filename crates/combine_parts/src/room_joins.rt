//! The rooms of all parts, joined to a share of a call's room.

ghost use Rattle.std.specs.Prelude.{◌≡◌, ◌+◌, Ok, length, true, false, nat_le, MatchResult};
ghost use Rattle.combine_parts.specs.RoomJoins.{joined_counts_of, joined_share_of, lie_within, shares_of, starts_of};
ghost use Rattle.combine_parts.specs.RoomJoins.{with_room, with_rooms};
ghost use Rattle.cvl_base.specs.declared.fault.FaultNo.TheVariants as no;
ghost use Rattle.cvl_base.specs.Faults.{fault};
ghost use Rattle.cvl_base.specs.Rooms.{Overwrites};

use cvl_base::monoids::Add;
use cvl_base::{Binary, Fault, FaultNo};
use elementwise::on_pairs_in_first;

/// Where the room of each part begins, of boundaries at the last of which they end.
pub(crate) fn starts_of(boundaries: &[usize]) -> &[usize]
    ensures { result.now ≡ starts_of boundaries.now }
{
    let (starts, _end) = boundaries.split_at(boundaries.len().saturating_sub(1));
    starts
}

/// Whether so many places from `from` on of a room that begins at `start` lie in a memory that is so long.
fn lies_within(memory: usize, from: usize, places: usize, start: usize) -> bool
    ensures { result ≡ nat_le (start + from + places) memory }
{
    start <= memory && from <= memory - start && places <= memory - start - from
}

/// Checks that so many places from `from` on of each room lie in a memory that is so long, else `LengthMismatch`, without a
/// place.
pub(crate) fn check_rooms(
    memory: usize,
    from: usize,
    places: usize,
    starts: &[usize],
) -> Result<(), Fault>
    ensures { MatchResult result (λ _. lie_within memory from places starts.now ≡ true)
        (λ f. (f ≡ fault no.LengthMismatch) × (lie_within memory from places starts.now ≡ false)) }
{
    for start in starts {
        if !lies_within(memory, from, places, *start) {
            return Err(Fault::new(FaultNo::LengthMismatch));
        }
    }
    Ok(())
}

/// Joins each place with the same place of a room.
fn join_room<O: Binary<X, X>, X: Copy>(room: &[X], out: &mut [X])
    requires { length out.old ≡ length room.now }
    ensures { out.new ≡ with_room O.value out.old room.now }
{
    let _agree = on_pairs_in_first::<O, X>(out, room);
}

/// Joins places from `from` on with the same places of each room, in the order of the rooms.
pub(crate) fn join_rooms<O: Binary<X, X>, X: Copy>(
    from: usize,
    starts: &[usize],
    memory: &[X],
    out: &mut [X],
)
    requires { lie_within (length memory.now) from (length out.old) starts.now ≡ true }
    ensures { out.new ≡ with_rooms O.value out.old (shares_of from (length out.old) memory.now starts.now) }
{
    for start in starts {
        let (_before, behind) = memory.split_at(*start + from);
        let (room, _others) = behind.split_at(out.len());
        join_room::<O, X>(room, out);
    }
}

/// Joins a share of a call's room, its places from `from` on, with the same places of each part's room, in the order of the
/// parts. The rooms begin at the boundaries in a memory, but for the last one, where they end.
///
/// `LengthMismatch`, without a place, if some of these places do not lie in the memory; the share is then as before. It takes no
/// memory. Source: Blelloch's reduce in parts, at each place.
pub fn join_share<O: Binary<X, X>, X: Copy>(
    from: usize,
    boundaries: &[usize],
    memory: &[X],
    out: &mut [X],
) -> Result<(), Fault>
    ensures { Overwrites (joined_share_of O.value from boundaries.now memory.now out.old) result out.old out.new }
{
    let starts = starts_of(boundaries);
    check_rooms(memory.len(), from, out.len(), starts)?;
    join_rooms::<O, X>(from, starts, memory, out);
    Ok(())
}

/// Adds up the counts of all parts in a share of a call's room, whatever stood there. Its conditions and its fault are those of
/// [`join_share`].
pub fn join_counts(
    from: usize,
    boundaries: &[usize],
    memory: &[i32],
    out: &mut [i32],
) -> Result<(), Fault>
    ensures { Overwrites (joined_counts_of from boundaries.now memory.now (length out.old)) result out.old out.new }
{
    let starts = starts_of(boundaries);
    check_rooms(memory.len(), from, out.len(), starts)?;
    out.fill(0);
    join_rooms::<Add, i32>(from, starts, memory, out);
    Ok(())
}
