//! Checked scans by segments by steps.

ghost use Rattle.std.specs.Prelude.{◌≡◌, ℕ, ℤ, pos, List, Ok, Err, Some, map, slice_get};
ghost use Rattle.std.specs.List.{AllPass};
ghost use Rattle.c_calls.specs.Calls.{by_segments, lengths_of};
ghost use Rattle.c_calls.specs.Numbers.{int_monoid};
ghost use Rattle.c_calls.specs.Told.{RoomTold, done};
ghost use Rattle.call_table.specs.declared.families.IntMonoid.TheVariants.{Add};
ghost use Rattle.cvl_base.specs.CheckedSums.{checked_seg_scan_of};
ghost use Rattle.cvl_base.specs.declared.fault.Fault.{Fault};
ghost use Rattle.cvl_base.specs.ItemWords.{is_number};
ghost use Rattle.segment_parts.specs.CheckedSums.{checked_part_scan_by};
ghost use Rattle.step_laws.specs.CheckedSegmentSteps.{LongCarries, LooksAtSegSums, ScansSegSums, SegTotals};
ghost use Rattle.step_laws.specs.Looks.{Fails};
ghost use Rattle.step_laws.specs.Pieces.{AreCut};
ghost use Rattle.step_laws.specs.SegmentSteps.{HaveRooms, SegPart, elements_of, pieces_of, room_of};
ghost use Rattle.step_laws.specs.Steps.{InParts};

use call_laws::checked_sums::{carry_fits, checked_segments_in_parts};

/// A checked scan by segments by steps, whose parts are cut at any places: each part adds up its integers since the last start
/// of a segment, in 64 bits; once, the sums and the starts say what stands before each part, in 64 bits too; each part looks
/// at its sums after that, and if no part finds one that does not fit 32 bits, each scans its integers by sums that wrap. Then
/// no sum of the whole is outside 32 bits, and the room is the checked scan of each segment of the whole. If a part finds a sum
/// that does not fit, the call has a fault.
pub fn checked_seg_scans_by_steps()
    ensures scanned { (op : ℕ) (lengths : List ℤ) (segments : List ℕ) (start summed carried looked end : List (SegPart ℤ)) →
        int_monoid op ≡ Ok Add → lengths_of lengths ≡ Ok segments → AreCut segments (pieces_of start) →
        AllPass is_number (elements_of start) → HaveRooms start →
        InParts SegTotals start summed → LongCarries summed carried → InParts LooksAtSegSums carried looked →
        InParts (ScansSegSums op) looked end →
        RoomTold (by_segments lengths (checked_seg_scan_of (elements_of start))) done (room_of start) (room_of end) }
    ensures faults { (lengths : List ℤ) (segments : List ℕ) (start summed carried : List (SegPart ℤ)) (k : ℕ)
        (own : SegPart ℤ) →
        lengths_of lengths ≡ Ok segments → AreCut segments (pieces_of start) →
        AllPass is_number (elements_of start) → HaveRooms start →
        InParts SegTotals start summed → LongCarries summed carried → slice_get carried k ≡ Some own →
        Fails (checked_part_scan_by own.before own.piece.head (map pos own.piece.lengths) own.piece.elements) →
        (f : Fault) × (by_segments lengths (checked_seg_scan_of (elements_of start)) ≡ Err f) }
{
    carry_fits();
    checked_segments_in_parts();
}
