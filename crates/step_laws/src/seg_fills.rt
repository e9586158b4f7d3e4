//! Copies and numbers by segments by steps.

ghost use Rattle.std.specs.Prelude.{◌≡◌, ℕ, ℤ, Bool, List, Ok};
ghost use Rattle.cvl_base.specs.Limits.{most_places};
ghost use Rattle.cvl_base.specs.SegmentedCalls.{seg_distribute_within, seg_index_within};
ghost use Rattle.step_laws.specs.FillParts.{AreDone, ArePartsOf, FillPart, room_of};
ghost use Rattle.step_laws.specs.FillSteps.{Copies, Numbers, inits_in, strides_in};
ghost use Rattle.step_laws.specs.Steps.{InParts};
ghost use Rattle.c_calls.specs.Calls.{by_segments, lengths_of};
ghost use Rattle.c_calls.specs.Told.{RoomTold, done};

/// A distribute by segments by one step, whose parts are cut at any places: each part writes the values of its segments, each as
/// often as it has elements of the segment. Whatever the parts answer, the room is the distribute of the whole.
pub fn seg_distributes_by_steps()
    ensures integers { (lengths : List ℤ) (segments : List ℕ) (values : List ℤ) (start end : List (FillPart ℤ ℤ)) →
        lengths_of lengths ≡ Ok segments → ArePartsOf segments values start → InParts Copies start end →
        RoomTold (by_segments lengths (seg_distribute_within most_places values)) done (room_of start) (room_of end) }
    ensures booleans { (lengths : List ℤ) (segments : List ℕ) (values : List Bool) (start end : List (FillPart Bool Bool)) →
        lengths_of lengths ≡ Ok segments → ArePartsOf segments values start → InParts Copies start end →
        RoomTold (by_segments lengths (seg_distribute_within most_places values)) done (room_of start) (room_of end) }
{}

/// An index by segments by one step, as [`seg_distributes_by_steps`]: each part writes the numbers of its segments, of which the
/// open one goes on where the parts before it end.
pub fn seg_indexes_by_steps()
    ensures { (lengths : List ℤ) (segments : List ℕ) (steps : List (ℤ × ℤ)) (start end : List (FillPart (ℤ × ℤ) ℤ)) →
        lengths_of lengths ≡ Ok segments → ArePartsOf segments steps start → AreDone 0 start → InParts Numbers start end →
        RoomTold (by_segments lengths (seg_index_within most_places (inits_in steps) (strides_in steps))) done
        (room_of start) (room_of end) }
{}
