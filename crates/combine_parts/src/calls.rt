//! The steps by the number of an operator: `UnknownCall`, without a place, if none has it.

ghost use Rattle.std.specs.Prelude.{length};
ghost use Rattle.combine_parts.specs.Calls.{joined_bools_by, joined_ints_by, own_bool_room_by, own_int_room_by};
ghost use Rattle.combine_parts.specs.OwnRooms.{MakesOwn, own_room_of};
ghost use Rattle.cvl_base.specs.Rooms.{Overwrites};
ghost use Rattle.std.specs.List.{AllPass};

use crate::own_rooms::own_room;
use crate::room_joins::join_share;
use c_calls::numbers::operator_of;
use cvl_base::{BoolBinary, Fault, IntMonoid, Monoid, by_bool_binary, by_int_monoid};
use scan_walks::{Itself, know_numbers};

/// [`own_room`] of elements that are the items.
fn own_items<M: Monoid>(
    places: usize,
    source: &[M::Item],
    index: &[i32],
    memory: &mut [M::Item],
) -> Result<(), Fault>
    requires { AllPass M.is_item source.now }
    ensures { MakesOwn places (own_room_of M.join M.unit places (length memory.old) source.now index.now)
        result memory.old memory.new }
{
    own_room::<M, M::Item, Itself>(places, source, index, memory)
}

/// Joins a part's integers in its own room by operator number `op`, as [`own_room`] does.
pub fn own_int_room(
    op: u32,
    places: usize,
    source: &[i32],
    index: &[i32],
    memory: &mut [i32],
) -> Result<(), Fault>
    ensures { MakesOwn places (own_int_room_by op places (length memory.old) source.now index.now) result memory.old memory.new }
{
    let op = operator_of::<IntMonoid>(op)?;
    know_numbers(source);
    by_int_monoid!(op, own_items::<_>(places, source, index, memory))
}

/// Joins a part's booleans in its own room by operator number `op`, as [`own_room`] does.
pub fn own_bool_room(
    op: u32,
    places: usize,
    source: &[bool],
    index: &[i32],
    memory: &mut [bool],
) -> Result<(), Fault>
    ensures { MakesOwn places (own_bool_room_by op places (length memory.old) source.now index.now) result memory.old memory.new }
{
    let op = operator_of::<BoolBinary>(op)?;
    by_bool_binary!(op, own_items::<_>(places, source, index, memory))
}

/// Joins a share of a call's integers with the rooms of all parts by operator number `op`, as [`join_share`] does.
pub fn join_ints(
    op: u32,
    from: usize,
    boundaries: &[usize],
    memory: &[i32],
    out: &mut [i32],
) -> Result<(), Fault>
    ensures { Overwrites (joined_ints_by op from boundaries.now memory.now out.old) result out.old out.new }
{
    let op = operator_of::<IntMonoid>(op)?;
    by_int_monoid!(op, join_share::<_, i32>(from, boundaries, memory, out))
}

/// Joins a share of a call's booleans with the rooms of all parts by operator number `op`, as [`join_share`] does.
pub fn join_bools(
    op: u32,
    from: usize,
    boundaries: &[usize],
    memory: &[bool],
    out: &mut [bool],
) -> Result<(), Fault>
    ensures { Overwrites (joined_bools_by op from boundaries.now memory.now out.old) result out.old out.new }
{
    let op = operator_of::<BoolBinary>(op)?;
    by_bool_binary!(op, join_share::<_, bool>(from, boundaries, memory, out))
}
