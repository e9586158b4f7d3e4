//! Reduces and counts by segments by steps.

ghost use Rattle.std.specs.Prelude.{◌≡◌, ℕ, ℤ, Bool, List, Ok};
ghost use Rattle.std.specs.List.{AllPass};
ghost use Rattle.c_calls.specs.Numbers.{int_monoid};
ghost use Rattle.call_table.specs.declared.families.IntMonoid.TheVariants.{Add};
ghost use Rattle.cvl_base.specs.ItemWords.{is_number};
ghost use Rattle.cvl_base.specs.SegmentedCalls.{counts_of};
ghost use Rattle.step_laws.specs.ReduceParts.{ArePartsOf, HaveRooms, ReducePart, elements_of, room_of};
ghost use Rattle.step_laws.specs.ReduceSteps.{BoolGoesOn, BoolReducesHead, BoolReducesStarts};
ghost use Rattle.step_laws.specs.ReduceSteps.{CountsHead, CountsStarts};
ghost use Rattle.step_laws.specs.ReduceSteps.{IntGoesOn, IntReducesHead, IntReducesStarts};
ghost use Rattle.step_laws.specs.Steps.{InParts};
ghost use Rattle.c_calls.specs.Calls.{by_segments, lengths_of};
ghost use Rattle.c_calls.specs.Scans.{seg_bool_reduce_by, seg_int_reduce_by};
ghost use Rattle.c_calls.specs.Told.{RoomTold, done};
ghost use Rattle.flag_calls.specs.Flags.{flags_of};

/// A reduce by segments by steps, whose parts are cut at any places: each part reduces its head, the elements before its first
/// start of a segment; once, the heads and the starts say what goes on behind each part; each part reduces the segments that
/// start in it, the last one with what goes on behind the part. Whatever these parts answer, the room is the reduce of each
/// segment of the whole.
pub fn seg_reduces_by_steps()
    ensures integers { (op : ℕ) (lengths : List ℤ) (segments : List ℕ) (start told known end : List (ReducePart ℤ ℤ)) →
        lengths_of lengths ≡ Ok segments → ArePartsOf segments start → AllPass is_number (elements_of start) → HaveRooms start →
        InParts (IntReducesHead op) start told → IntGoesOn op told known → InParts (IntReducesStarts op) known end →
        RoomTold (seg_int_reduce_by op (elements_of start) lengths) done (room_of start) (room_of end) }
    ensures booleans { (op : ℕ) (lengths : List ℤ) (segments : List ℕ) (start told known end : List (ReducePart ℕ Bool)) →
        lengths_of lengths ≡ Ok segments → ArePartsOf segments start → HaveRooms start →
        InParts (BoolReducesHead op) start told → BoolGoesOn op told known → InParts (BoolReducesStarts op) known end →
        RoomTold (seg_bool_reduce_by op (elements_of start) lengths) done (room_of start) (room_of end) }
{}

/// A count by segments by steps, as [`seg_reduces_by_steps`]: each part counts the true flags of its head; once, the counts are
/// put together by the operator `Add`; each part counts those of the segments that start in it. No count wraps.
pub fn seg_counts_by_steps()
    ensures { (op : ℕ) (lengths : List ℤ) (segments : List ℕ) (start told known end : List (ReducePart ℕ ℤ)) →
        int_monoid op ≡ Ok Add → lengths_of lengths ≡ Ok segments → ArePartsOf segments start → HaveRooms start →
        InParts CountsHead start told → IntGoesOn op told known → InParts CountsStarts known end →
        RoomTold (by_segments lengths (counts_of (flags_of (elements_of start)))) done (room_of start) (room_of end) }
{}
