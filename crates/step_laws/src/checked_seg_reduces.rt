//! Checked reduces by segments by steps.

ghost use Rattle.std.specs.Prelude.{◌≡◌, ℕ, ℤ, pos, List, Ok, Err, Some, map, slice_get};
ghost use Rattle.std.specs.List.{AllPass};
ghost use Rattle.c_calls.specs.Calls.{by_segments, lengths_of};
ghost use Rattle.c_calls.specs.Told.{RoomTold, done};
ghost use Rattle.cvl_base.specs.CheckedSums.{checked_seg_reduce_of};
ghost use Rattle.cvl_base.specs.declared.fault.Fault.{Fault};
ghost use Rattle.cvl_base.specs.ItemWords.{is_number};
ghost use Rattle.segment_parts.specs.CheckedSums.{checked_part_reduce_by};
ghost use Rattle.step_laws.specs.CheckedReduceSteps.{HeadTotals, LongGoesOn, LooksAtStarts, SumsStarts};
ghost use Rattle.step_laws.specs.Looks.{Fails};
ghost use Rattle.step_laws.specs.ReduceParts.{ArePartsOf, HaveRooms, ReducePart, elements_of, room_of};
ghost use Rattle.step_laws.specs.Steps.{InParts};

use call_laws::checked_sums::{carry_fits, checked_segments_in_parts};

/// A checked reduce by segments by steps, whose parts are cut at any places: each part adds up its head, the elements before
/// its first start of a segment, in 64 bits; once, the sums and the starts say what goes on behind each part, in 64 bits too;
/// each part looks at the sums of the segments that start in it, the last one with what goes on behind the part; and if no
/// part finds one that does not fit 32 bits, each writes them. Then no sum of the whole is outside 32 bits, and the room is
/// the checked sum of each segment of the whole. If a part finds one that does not fit, the call has a fault.
pub fn checked_seg_reduces_by_steps()
    ensures summed { (lengths : List ℤ) (segments : List ℕ) (start told known looked end : List (ReducePart ℤ ℤ)) →
        lengths_of lengths ≡ Ok segments → ArePartsOf segments start → AllPass is_number (elements_of start) → HaveRooms start →
        InParts HeadTotals start told → LongGoesOn told known → InParts LooksAtStarts known looked →
        InParts SumsStarts looked end →
        RoomTold (by_segments lengths (checked_seg_reduce_of (elements_of start))) done (room_of start) (room_of end) }
    ensures faults { (lengths : List ℤ) (segments : List ℕ) (start told known : List (ReducePart ℤ ℤ)) (k : ℕ)
        (own : ReducePart ℤ ℤ) →
        lengths_of lengths ≡ Ok segments → ArePartsOf segments start → AllPass is_number (elements_of start) → HaveRooms start →
        InParts HeadTotals start told → LongGoesOn told known → slice_get known k ≡ Some own →
        Fails (checked_part_reduce_by own.behind own.head (map pos own.lengths) own.elements) →
        (f : Fault) × (by_segments lengths (checked_seg_reduce_of (elements_of start)) ≡ Err f) }
{
    carry_fits();
    checked_segments_in_parts();
}
