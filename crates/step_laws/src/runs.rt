//! Runs of equal neighbours by steps.

ghost use Rattle.std.specs.Prelude.{◌≡◌, ◌≢◌, ◌+◌, ◌≤◌, ℕ, ℤ, pos, Bool, List, [], ◌∷◌, Ok, length};
ghost use Rattle.std.specs.List.{AllZip};
ghost use Rattle.c_calls.specs.Calls.{by_segments, in_limit, lengths_of};
ghost use Rattle.c_calls.specs.Numbers.{int_monoid};
ghost use Rattle.c_calls.specs.Told.{FrontTold, RoomTold, done, front_of};
ghost use Rattle.c_calls.specs.declared.status.CvlStatus.{CvlStatus};
ghost use Rattle.call_table.specs.declared.families.IntMonoid.TheVariants.{Add};
ghost use Rattle.cvl_base.specs.Limits.{most_places};
ghost use Rattle.run_lengths.specs.Runs.{its_length, its_start, run_count_of, run_numbers_of, seg_run_numbers_of};
ghost use Rattle.run_parts.specs.Places.{RunLayout};
ghost use Rattle.segment_values.specs.Values.{each_of};
ghost use Rattle.step_laws.specs.PackSteps.{SameBehind};
ghost use Rattle.step_laws.specs.ReduceParts.{HaveRooms, elements_of, room_of};
ghost use Rattle.step_laws.specs.RunParts.{AreRunPartsOf, HaveMemory, HaveRanges, KnowBehinds, RangesAlone, RunPart, parts_of};
ghost use Rattle.step_laws.specs.RunSteps.{CountsRuns, LaysOutRuns, PutsLengths, PutsStarts, RunsGoOn, TellsFronts, TellsRuns};
ghost use Rattle.step_laws.specs.Steps.{InParts};

/// Runs of equal neighbours by steps, whose parts are cut at any places: each part tells the lengths of the runs that begin in
/// it; once, these say where the runs of each part go, how many there are in all, and how many elements the last run of each
/// part has in later parts; if the room has places for them, each part puts the lengths, or the places where its runs begin,
/// into its range of the room. Whatever the parts answer, the front of the room then has those of the whole, and the status and
/// the count are the call's. If the room is too short, status and count are the call's too, and the room is as before.
pub fn runs_by_steps<X>()
    ensures lengths { (differ : X → X → Bool) (lengths : List ℤ) (segments : List ℕ) (start told placed end : List (RunPart X))
        (before now : RunLayout) (room after : List ℤ) →
        lengths_of lengths ≡ Ok segments → AreRunPartsOf segments start → HaveMemory start →
        length before.layout.places ≡ length start + 1 → length before.behinds ≡ length start →
        InParts (TellsRuns differ (elements_of (parts_of start))) start told →
        LaysOutRuns (length (elements_of (parts_of start))) told (length room) done before now →
        AllZip RangesAlone told placed → HaveRanges now.layout.places room placed → KnowBehinds now.behinds placed →
        InParts PutsLengths placed end → HaveRanges now.layout.places after end → SameBehind now.layout room after →
        FrontTold (by_segments lengths (seg_run_numbers_of its_length differ (elements_of (parts_of start)))) done
        (front_of room before.layout.total) (front_of after now.layout.total) }
    ensures starts { (differ : X → X → Bool) (lengths : List ℤ) (segments : List ℕ) (start told placed end : List (RunPart X))
        (before now : RunLayout) (room after : List ℤ) →
        lengths_of lengths ≡ Ok segments → AreRunPartsOf segments start → HaveMemory start →
        length before.layout.places ≡ length start + 1 → length before.behinds ≡ length start →
        InParts (TellsRuns differ (elements_of (parts_of start))) start told →
        LaysOutRuns (length (elements_of (parts_of start))) told (length room) done before now →
        AllZip RangesAlone told placed → HaveRanges now.layout.places room placed → KnowBehinds now.behinds placed →
        InParts PutsStarts placed end → HaveRanges now.layout.places after end → SameBehind now.layout room after →
        FrontTold (by_segments lengths (seg_run_numbers_of its_start differ (elements_of (parts_of start)))) done
        (front_of room before.layout.total) (front_of after now.layout.total) }
    ensures too_short { (number : ℕ → ℕ → ℤ) (differ : X → X → Bool) (lengths : List ℤ) (segments : List ℕ)
        (start told : List (RunPart X)) (status : CvlStatus) (before now : RunLayout) (room : List ℤ) →
        lengths_of lengths ≡ Ok segments → AreRunPartsOf segments start → HaveMemory start →
        length before.layout.places ≡ length start + 1 → length before.behinds ≡ length start →
        InParts (TellsRuns differ (elements_of (parts_of start))) start told →
        LaysOutRuns (length (elements_of (parts_of start))) told (length room) status before now → status ≢ done →
        FrontTold (by_segments lengths (seg_run_numbers_of number differ (elements_of (parts_of start)))) status
        (front_of room before.layout.total) (front_of room now.layout.total) }
{}

/// A vector has the runs of its one segment.
pub fn runs_as_one_segment<X>()
    ensures { (number : ℕ → ℕ → ℤ) (differ : X → X → Bool) (xs : List X) → length xs ≤ most_places →
        by_segments (pos (length xs) ∷ []) (seg_run_numbers_of number differ xs)
        ≡ in_limit xs (Ok (run_numbers_of number differ xs)) }
{}

/// Counts of the runs of each segment by steps: each part tells how many runs begin in its head; once, these are put together by
/// the operator `Add`; each part counts the runs of the segments that start in it, the last one with those that begin behind the
/// part. No count wraps, and whatever these parts answer, the room is the count of each segment of the whole.
pub fn run_counts_by_steps<X>()
    ensures { (differ : X → X → Bool) (op : ℕ) (lengths : List ℤ) (segments : List ℕ) (start told known end : List (RunPart X)) →
        int_monoid op ≡ Ok Add → lengths_of lengths ≡ Ok segments → AreRunPartsOf segments start → HaveRooms (parts_of start) →
        InParts (TellsFronts differ (elements_of (parts_of start))) start told → RunsGoOn op told known →
        InParts (CountsRuns differ) known end →
        RoomTold (by_segments lengths (each_of (run_count_of differ) (elements_of (parts_of start)))) done
        (room_of (parts_of start)) (room_of (parts_of end)) }
{}
