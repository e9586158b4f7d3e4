//! Where segments start in the parts of a call: that the parts into which a segmented vector is cut at places have what the laws
//! of calls by segments assume of them.

ghost use Rattle.std.specs.Prelude.{◌≡◌, ◌+◌, ◌<◌, ◌≤◌, ℕ, ℤ, List, Ok, length, map, slice_range, sum, take};
ghost use Rattle.std.specs.List.{All, AllZip};
ghost use Rattle.part_cuts.specs.Evenly.{even_place, even_places};
ghost use Rattle.part_cuts.specs.Places.{exact_places_of};
ghost use Rattle.part_cuts.specs.Starts.{first_start, start_of, starts_at};
ghost use Rattle.step_laws.specs.CutSegments.{CutIntoParts, IsDone, IsFillPart, IsReducePart, IsRunPart};
ghost use Rattle.step_laws.specs.CutSegments.{cut_parts_of, head_of, last_of, piece_of};
ghost use Rattle.step_laws.specs.FillParts.{AreDone, ArePartsOf as AreFillPartsOf, FillPart};
ghost use Rattle.step_laws.specs.LengthSteps.{Measures};
ghost use Rattle.step_laws.specs.PackSteps.{ranges_of};
ghost use Rattle.step_laws.specs.Parts.{Part, told_of};
ghost use Rattle.step_laws.specs.Pieces.{AreCut, since_start};
ghost use Rattle.step_laws.specs.ReduceParts.{ArePartsOf as AreReducePartsOf, ReducePart};
ghost use Rattle.step_laws.specs.RunParts.{AreRunPartsOf, RunPart};
ghost use Rattle.step_laws.specs.Steps.{InParts};
ghost use Rattle.c_calls.specs.Calls.{lengths_of};
ghost use Rattle.c_calls.specs.Told.{RoomTold, done};

/// Even places, one for each part and one behind them all: they ascend strictly from 0 to the number of elements, unless there
/// are more parts than elements or none.
pub fn even_places_ascend()
    ensures many { (len parts : ℕ) → length (even_places len parts) ≡ parts + 1 }
    ensures first { (len parts : ℕ) → even_place len parts 0 ≡ 0 }
    ensures last { (len parts : ℕ) → 1 ≤ parts → even_place len parts parts ≡ len }
    ensures next { (len parts k : ℕ) → 1 ≤ parts → parts ≤ len → even_place len parts k < even_place len parts (k + 1) }
    ensures all { (len parts : ℕ) → 1 ≤ parts → parts ≤ len → CutIntoParts (even_places len parts) len }
{}

/// A segmented vector, cut at any places that ascend strictly from 0 to the number of its elements. Parts that have of it what
/// starts in them, and of a segment that goes on in them their head, are what the laws of calls by segments assume of the pieces
/// of a scan and of the parts of a reduce, of a distribute or an index, and of a call on runs. What the steps of a scan take of a
/// piece, its head and its elements since the last start of a segment, are slices of the vector. An empty segment that stands at
/// a cut starts in the part behind it, and one behind the last element in the last part. The first part begins with the first
/// segment, and behind the last one all segments end.
pub fn segments_cut_at_places<X, Y>()
    ensures begin { (lengths : List ℕ) → first_start 0 lengths ≡ 0 }
    ensures end { (lengths : List ℕ) → start_of lengths (length lengths) ≡ sum lengths }
    ensures pieces { (lengths places : List ℕ) (xs : List X) → sum lengths ≡ length xs → CutIntoParts places (length xs) →
        AreCut lengths (map (piece_of lengths xs) (cut_parts_of lengths places)) }
    ensures heads { (lengths places : List ℕ) (xs : List X) → sum lengths ≡ length xs → CutIntoParts places (length xs) →
        All (λ c. take (head_of lengths c) (slice_range xs c.from c.to) ≡ slice_range xs c.from (c.from + head_of lengths c))
        (cut_parts_of lengths places) }
    ensures since_starts { (lengths places : List ℕ) (xs : List X) → sum lengths ≡ length xs → CutIntoParts places (length xs) →
        All (λ c. since_start (piece_of lengths xs c) ≡ slice_range xs (last_of lengths c) c.to) (cut_parts_of lengths places) }
    ensures reduce_parts { (lengths places : List ℕ) (xs : List X) (parts : List (ReducePart X Y)) →
        sum lengths ≡ length xs → CutIntoParts places (length xs) →
        AllZip (IsReducePart lengths xs) (cut_parts_of lengths places) parts → AreReducePartsOf lengths parts }
    ensures fill_parts { (lengths places : List ℕ) (values : List X) (room : List Y) (parts : List (FillPart X Y)) →
        sum lengths ≡ length room → length values ≡ length lengths → CutIntoParts places (length room) →
        AllZip (IsFillPart lengths values room) (cut_parts_of lengths places) parts → AreFillPartsOf lengths values parts }
    ensures dones { (lengths places : List ℕ) (values : List X) (room : List Y) (parts : List (FillPart X Y)) →
        sum lengths ≡ length room → CutIntoParts places (length room) →
        AllZip (IsFillPart lengths values room) (cut_parts_of lengths places) parts →
        AllZip (IsDone lengths) (cut_parts_of lengths places) parts → AreDone 0 parts }
    ensures run_parts { (lengths places : List ℕ) (xs : List X) (parts : List (RunPart X)) →
        sum lengths ≡ length xs → CutIntoParts places (length xs) →
        AllZip (IsRunPart lengths xs) (cut_parts_of lengths places) parts → AreRunPartsOf lengths parts }
{}

/// Where segments start, by steps: each part adds up its even share of the lengths, and one step finds from the totals where each
/// share begins. If that step is done, the lengths add up to that of the vector, and the places are those where the first segment
/// of each share starts, at last where all segments end.
pub fn starts_by_steps()
    ensures { (lengths : List ℤ) (segments : List ℕ) (start measured : List (Part ℤ ℕ ℤ)) (len : ℕ) (before places : List ℕ) →
        lengths_of lengths ≡ Ok segments → 1 ≤ length start →
        map (λ p. p.elements) start ≡ ranges_of (even_places (length lengths) (length start)) lengths →
        InParts Measures start measured → RoomTold (exact_places_of (told_of measured) len) done before places →
        (sum segments ≡ len) × (places ≡ starts_at segments (even_places (length segments) (length start))) }
{}
