//! Scans by segments by steps.

ghost use Rattle.std.specs.Prelude.{◌≡◌, ℕ, ℤ, Bool, List, Ok};
ghost use Rattle.std.specs.List.{AllPass};
ghost use Rattle.cvl_base.specs.ItemWords.{is_number};
ghost use Rattle.step_laws.specs.Pieces.{AreCut};
ghost use Rattle.step_laws.specs.SegmentSteps.{BoolSegCarries, BoolSegReduces, BoolSegScans};
ghost use Rattle.step_laws.specs.SegmentSteps.{IntSegCarries, IntSegReduces, IntSegScans};
ghost use Rattle.step_laws.specs.SegmentSteps.{HaveRooms, SegPart, elements_of, pieces_of, room_of};
ghost use Rattle.step_laws.specs.Steps.{InParts};
ghost use Rattle.c_calls.specs.Calls.{lengths_of};
ghost use Rattle.c_calls.specs.Scans.{seg_bool_scan_by, seg_int_scan_by};
ghost use Rattle.c_calls.specs.Told.{RoomTold, done};

/// A scan by segments by steps, whose parts are cut at any places: each part reduces its elements since the last start of a
/// segment; once, the reduces and the starts say what stands before each part; each part scans its elements after that.
/// Whatever these parts answer, the room is the scan of each segment of the whole.
pub fn seg_scans_by_steps()
    ensures integers { (op : ℕ) (lengths : List ℤ) (segments : List ℕ) (start summed carried end : List (SegPart ℤ)) →
        lengths_of lengths ≡ Ok segments → AreCut segments (pieces_of start) →
        AllPass is_number (elements_of start) → HaveRooms start →
        InParts (IntSegReduces op) start summed → IntSegCarries op summed carried → InParts (IntSegScans op) carried end →
        RoomTold (seg_int_scan_by op (elements_of start) lengths) done (room_of start) (room_of end) }
    ensures booleans { (op : ℕ) (lengths : List ℤ) (segments : List ℕ) (start summed carried end : List (SegPart Bool)) →
        lengths_of lengths ≡ Ok segments → AreCut segments (pieces_of start) → HaveRooms start →
        InParts (BoolSegReduces op) start summed → BoolSegCarries op summed carried → InParts (BoolSegScans op) carried end →
        RoomTold (seg_bool_scan_by op (elements_of start) lengths) done (room_of start) (room_of end) }
{}
