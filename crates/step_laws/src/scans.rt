//! Scans and reduces by steps.

ghost use Rattle.std.specs.Prelude.{◌≡◌, ◌≤◌, ℕ, ℤ, Bool, List, length};
ghost use Rattle.std.specs.List.{AllPass};
ghost use Rattle.cvl_base.specs.ItemWords.{is_number};
ghost use Rattle.cvl_base.specs.Limits.{most_places};
ghost use Rattle.step_laws.specs.FlatSteps.{BoolCarries, BoolReduces, BoolScans, IntCarries, IntReduces, IntScans};
ghost use Rattle.step_laws.specs.Parts.{HaveRooms, Part, elements_of, room_of, told_of};
ghost use Rattle.step_laws.specs.Steps.{InParts};
ghost use Rattle.c_calls.specs.Scans.{bool_reduce_by, bool_scan_by, int_reduce_by, int_scan_by};
ghost use Rattle.c_calls.specs.Told.{RoomTold, Told, done};
ghost use Rattle.flag_calls.specs.Flags.{flags_of};

/// A scan by steps: each part reduces its elements; the reduces are scanned, once; each part scans its elements after what then
/// stands before them. Whatever these parts answer, the room is the scan of the whole.
pub fn scans_by_steps()
    ensures integers { (op : ℕ) (start summed carried end : List (Part ℤ ℤ ℤ)) →
        AllPass is_number (elements_of start) → length (elements_of start) ≤ most_places → HaveRooms start →
        InParts (IntReduces op) start summed → IntCarries op summed carried → InParts (IntScans op) carried end →
        RoomTold (int_scan_by op (elements_of start)) done (room_of start) (room_of end) }
    ensures booleans { (op : ℕ) (start summed carried end : List (Part Bool Bool Bool)) →
        length (elements_of start) ≤ most_places → HaveRooms start →
        InParts (BoolReduces op) start summed → BoolCarries op summed carried → InParts (BoolScans op) carried end →
        RoomTold (bool_scan_by op (elements_of start)) done (room_of start) (room_of end) }
{}

/// A reduce by steps: each part reduces its elements, and then, once, the reduces are reduced. Booleans come as bytes.
pub fn reduces_by_steps()
    ensures integers { (op : ℕ) (start summed : List (Part ℤ ℤ ℤ)) (before now : ℤ) →
        AllPass is_number (elements_of start) → length (elements_of start) ≤ most_places →
        InParts (IntReduces op) start summed → Told (int_reduce_by op (told_of summed)) done before now →
        Told (int_reduce_by op (elements_of start)) done before now }
    ensures booleans { (op : ℕ) (start summed : List (Part Bool Bool Bool)) (bytes sums : List ℕ) (before now : Bool) →
        flags_of bytes ≡ elements_of start → flags_of sums ≡ told_of summed → length (elements_of start) ≤ most_places →
        InParts (BoolReduces op) start summed → Told (bool_reduce_by op sums) done before now →
        Told (bool_reduce_by op bytes) done before now }
{}
