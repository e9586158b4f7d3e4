//! Copies of one value, and numbers in equal steps, by steps.

ghost use Rattle.std.specs.Prelude.{◌≤◌, ℤ, pos, List, length};
ghost use Rattle.cvl_base.specs.Distributes.{distribute_within, index_within};
ghost use Rattle.cvl_base.specs.Limits.{most_places};
ghost use Rattle.step_laws.specs.RoomFills.{AreBehind, CopiesOf, NumbersOf, RoomPart, room_of};
ghost use Rattle.step_laws.specs.Steps.{InParts};
ghost use Rattle.c_calls.specs.Told.{RoomTold, done};

/// A distribute by one step, whose room is cut at any places: each part writes copies of the value. Whatever the parts answer,
/// the room is the distribute of the whole.
pub fn distributes_by_steps<X>()
    ensures { (value : X) (start end : List (RoomPart X)) → length (room_of start) ≤ most_places →
        InParts (CopiesOf value) start end →
        RoomTold (distribute_within most_places value (pos (length (room_of start)))) done (room_of start) (room_of end) }
{}

/// An index by one step, as [`distributes_by_steps`]: each part writes the numbers behind those of the parts before it.
pub fn indexes_by_steps()
    ensures { (init stride : ℤ) (start end : List (RoomPart ℤ)) → length (room_of start) ≤ most_places → AreBehind 0 start →
        InParts (NumbersOf init stride) start end →
        RoomTold (index_within most_places init stride (pos (length (room_of start)))) done (room_of start) (room_of end) }
{}
