//! Merges by flags by steps.

ghost use Rattle.std.specs.Prelude.{◌≡◌, ◌≢◌, ◌+◌, ◌≤◌, ℕ, List, length};
ghost use Rattle.std.specs.List.{AllZip};
ghost use Rattle.cvl_base.specs.Limits.{most_places};
ghost use Rattle.flag_merges.specs.Merges.{merge_of};
ghost use Rattle.step_laws.specs.MergeSteps.{CountsTrue, CutsFalses, CutsTrues, GetsAlone, HaveRanges, HaveRooms, MergePart};
ghost use Rattle.step_laws.specs.MergeSteps.{Merges, flags_in, room_of};
ghost use Rattle.step_laws.specs.Steps.{InParts};
ghost use Rattle.c_calls.specs.Calls.{in_limit};
ghost use Rattle.c_calls.specs.Told.{RoomTold, done};
ghost use Rattle.c_calls.specs.declared.status.CvlStatus.{CvlStatus};

/// A merge by flags by steps: each part counts its true flags; once, the counts say where each part's elements stand in the
/// vector for the true flags, and what these leave of the flags where they stand in the other vector; then each part merges
/// its own. Whatever the parts answer, the room is the merge of the whole. If either vector has not as many elements as flags
/// are true or false, the step that looks for its places answers what the call answers, and nothing is written.
pub fn merges_by_steps<X>()
    ensures fits { (start counted placed end : List (MergePart X)) (xs ys : List X) (before places behind rest : List ℕ) →
        length (flags_in start) ≤ most_places → HaveRooms start → InParts CountsTrue start counted →
        CutsTrues counted (length xs) done before places → CutsFalses counted places (length ys) done behind rest →
        AllZip GetsAlone counted placed → HaveRanges places xs rest ys placed → InParts Merges placed end →
        RoomTold (in_limit (flags_in start) (merge_of (flags_in start) xs ys)) done (room_of start) (room_of end) }
    ensures other_trues { (start counted : List (MergePart X)) (xs ys : List X) (status : CvlStatus) (before places : List ℕ) →
        length (flags_in start) ≤ most_places → length before ≡ length start + 1 → InParts CountsTrue start counted →
        CutsTrues counted (length xs) status before places → status ≢ done →
        RoomTold (in_limit (flags_in start) (merge_of (flags_in start) xs ys)) status (room_of start) (room_of start) }
    ensures other_falses { (start counted : List (MergePart X)) (xs ys : List X) (status : CvlStatus)
        (before places behind rest : List ℕ) →
        length (flags_in start) ≤ most_places → length behind ≡ length start + 1 → InParts CountsTrue start counted →
        CutsTrues counted (length xs) done before places → CutsFalses counted places (length ys) status behind rest →
        status ≢ done →
        RoomTold (in_limit (flags_in start) (merge_of (flags_in start) xs ys)) status (room_of start) (room_of start) }
{}
