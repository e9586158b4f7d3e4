//! Calls that go segment by segment, by steps: their vectors are cut between segments into parts, and each part makes the call on
//! its own segments.

ghost use Rattle.std.specs.Prelude.{◌≡◌, ◌≢◌, ◌+◌, ◌≤◌, ℕ, ℤ, Err, List, Ok, Result, length, map, sum, unsigned_abs};
ghost use Rattle.std.specs.List.{All};
ghost use Rattle.cvl_base.specs.declared.fault.Fault.{Fault};
ghost use Rattle.cvl_base.specs.declared.fault.FaultNo.TheVariants as no;
ghost use Rattle.cvl_base.specs.Faults.{fault};
ghost use Rattle.cvl_base.specs.Limits.{most_places};
ghost use Rattle.cvl_base.specs.Nests.{nest};
ghost use Rattle.cvl_base.specs.Packs.{count_of};
ghost use Rattle.flag_calls.specs.Flags.{flags_of};
ghost use Rattle.part_cuts.specs.Pairs.{added_places_of};
ghost use Rattle.part_cuts.specs.Places.{exact_count_places_of, exact_places_of, places_of};
ghost use Rattle.step_laws.specs.CountSteps.{Counts};
ghost use Rattle.step_laws.specs.CutSteps.{IsCutBy};
ghost use Rattle.step_laws.specs.LengthSteps.{Measures};
ghost use Rattle.step_laws.specs.Parts.{Part, elements_of, told_of};
ghost use Rattle.step_laws.specs.SegmentCalls.{AreMadeOf, CallPart, IsMadeOf, Makes, MakesOver, MakesOverBoth, TwoRoomPart};
ghost use Rattle.step_laws.specs.SegmentCalls.{room_of, rooms_in, rooms_of};
ghost use Rattle.step_laws.specs.Steps.{InParts};
ghost use Rattle.c_calls.specs.Calls.{lengths_of};
ghost use Rattle.c_calls.specs.Told.{RoomTold, Told, done, status_of_fault};
ghost use Rattle.c_calls.specs.declared.status.CvlStatus.{CvlStatus};

/// Where the parts of a call stand in a vector, by steps. If each part adds up its lengths there, or counts the flags that are
/// true there, the step that looks once for the places cuts the vector into ranges, one for each part, of as many elements. If
/// the lengths do not add up to the vector, its answer is the fault that the call has; if more or fewer flags are true than the
/// vector has elements, it is `LengthMismatch`. In a vector that has the elements of two others a part stands behind what is
/// before it in both; if it has more elements, or fewer, the answer is `LengthMismatch` too.
pub fn vectors_cut_by_steps<P, X>()
    ensures lengths { (start measured : List (Part ℤ ℕ ℤ)) (xs : List X) (before places : List ℕ) →
        InParts Measures start measured →
        RoomTold (exact_places_of (told_of measured) (length xs)) done before places →
        IsCutBy places (map (λ (p : Part ℤ ℕ ℤ). sum (map unsigned_abs p.elements)) start) xs }
    ensures other_lengths { (start measured : List (Part ℤ ℕ ℤ)) (xs : List X) (status : CvlStatus)
        (before places segments : List ℕ) →
        length before ≡ length start + 1 → lengths_of (elements_of start) ≡ Ok segments → InParts Measures start measured →
        RoomTold (exact_places_of (told_of measured) (length xs)) status before places → status ≢ done →
        (nest segments xs ≡ Err (fault no.LengthMismatch)) × (status ≡ status_of_fault (fault no.LengthMismatch)) }
    ensures flags { (start counted : List (Part ℕ ℤ ℤ)) (xs : List X) (before places : List ℕ) → InParts Counts start counted →
        RoomTold (exact_count_places_of (told_of counted) (length xs)) done before places →
        IsCutBy places (map (λ (p : Part ℕ ℤ ℤ). count_of (flags_of p.elements)) start) xs }
    ensures other_flags { (start counted : List (Part ℕ ℤ ℤ)) (xs : List X) (status : CvlStatus) (before places : List ℕ) →
        length before ≡ length start + 1 → InParts Counts start counted →
        RoomTold (exact_count_places_of (told_of counted) (length xs)) status before places → status ≢ done →
        (count_of (flags_of (elements_of start)) ≢ length xs) × (status ≡ status_of_fault (fault no.LengthMismatch)) }
    ensures both { (one other : P → ℕ) (parts : List P) (xs : List X) (before places : List ℕ) →
        RoomTold (added_places_of (places_of (map one parts)) (places_of (map other parts)) (length xs)) done before places →
        IsCutBy places (map (λ p. one p + other p) parts) xs }
    ensures other_both { (one other : P → ℕ) (parts : List P) (xs : List X) (status : CvlStatus) (before places : List ℕ) →
        length xs ≤ most_places → length before ≡ length parts + 1 →
        RoomTold (added_places_of (places_of (map one parts)) (places_of (map other parts)) (length xs)) status before places →
        status ≢ done →
        (sum (map (λ p. one p + other p) parts) ≢ length xs) × (status ≡ status_of_fault (fault no.LengthMismatch)) }
{}

/// A call that is made of the calls on its parts, by one step: each part makes the call on its own operands. If each is done, so
/// is the call, and the room has what the parts give, one part behind another; so too if the call goes on from what stands in the
/// room. If the call has a value, so has the call of each part, and no part is refused for what it is called with.
pub fn segment_calls_by_steps<I, Y>()
    ensures into { (call : I → Result (List Y) Fault) (whole : Result (List Y) Fault) (start end : List (CallPart I Y)) →
        IsMadeOf whole (map (λ (p : CallPart I Y). call p.operands) start) → InParts (Makes call) start end →
        RoomTold whole done (room_of start) (room_of end) }
    ensures over { (call : I → List Y → Result (List Y) Fault) (whole : Result (List Y) Fault) (start end : List (CallPart I Y)) →
        IsMadeOf whole (map (λ (p : CallPart I Y). call p.operands p.room) start) → InParts (MakesOver call) start end →
        Told whole done (room_of start) (room_of end) }
    ensures exactly { (call : I → Result (List Y) Fault) (whole : Result (List Y) Fault) (parts : List I) (ys : List Y) →
        IsMadeOf whole (map call parts) → whole ≡ Ok ys → All (λ p. (zs : List Y) × (call p ≡ Ok zs)) parts }
{}

/// The same of a call that writes over two rooms, as a sort by key over keys and values: if each part is done, so is the call,
/// and both rooms have what the parts give, one part behind another.
pub fn two_room_calls_by_steps<I, Y, Z>()
    ensures over { (call : I → List Y × List Z → Result (List Y × List Z) Fault) (whole : Result (List Y × List Z) Fault)
        (start end : List (TwoRoomPart I Y Z)) →
        AreMadeOf whole (map (λ (p : TwoRoomPart I Y Z). call p.operands (rooms_in p)) start) →
        InParts (MakesOverBoth call) start end → Told whole done (rooms_of start) (rooms_of end) }
    ensures exactly { (call : I → Result (List Y × List Z) Fault) (whole : Result (List Y × List Z) Fault) (parts : List I)
        (rooms : List Y × List Z) →
        AreMadeOf whole (map call parts) → whole ≡ Ok rooms → All (λ p. (own : List Y × List Z) × (call p ≡ Ok own)) parts }
{}
