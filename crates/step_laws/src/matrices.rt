//! Transposes by steps, each part of which writes a range of the result.

ghost use Rattle.std.specs.Prelude.{◌≡◌, ◌*◌, ◌≤◌, ℕ, List, length};
ghost use Rattle.cvl_base.specs.Limits.{most_places};
ghost use Rattle.step_laws.specs.RangeParts.{BeginAt, RangePart, room_of};
ghost use Rattle.step_laws.specs.SenderSteps.{Turns};
ghost use Rattle.step_laws.specs.Steps.{InParts};
ghost use Rattle.transposes.specs.Transposes.{transpose_of};
ghost use Rattle.c_calls.specs.Calls.{in_limit};
ghost use Rattle.c_calls.specs.Told.{RoomTold, done};

/// A transpose by one step: each part writes the places of its range, for which it reads the whole matrix. If rows times columns
/// is the number of elements, and of places, then the room is the transpose of the whole, whatever the parts answer.
pub fn transposes_by_steps<X>()
    ensures { (rows columns : ℕ) (source : List X) (start end : List (RangePart X)) →
        rows * columns ≡ length source → length source ≤ most_places → length (room_of start) ≡ length source →
        BeginAt 0 start → InParts (Turns rows columns source) start end →
        RoomTold (in_limit source (transpose_of rows columns source)) done (room_of start) (room_of end) }
{}
