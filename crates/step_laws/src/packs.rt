//! Packs by steps.

ghost use Rattle.std.specs.Prelude.{◌≡◌, ◌≢◌, ◌+◌, ◌≤◌, ℕ, ℤ, Bool, List, Ok, length, sum};
ghost use Rattle.std.specs.List.{AllZip};
ghost use Rattle.cvl_base.specs.Limits.{most_places};
ghost use Rattle.cvl_base.specs.Packs.{pack_of};
ghost use Rattle.cvl_base.specs.SegmentedCalls.{seg_pack_of};
ghost use Rattle.part_records.specs.Places.{Layout};
ghost use Rattle.step_laws.specs.PackSteps.{CountsKept, HaveRanges, LaysOut, Packs, SameBehind, flags_in, values_in};
ghost use Rattle.step_laws.specs.Parts.{FillsAlone, Part, elements_of};
ghost use Rattle.step_laws.specs.Steps.{InParts};
ghost use Rattle.c_calls.specs.Calls.{by_segments, in_limit, lengths_of};
ghost use Rattle.c_calls.specs.Told.{FrontTold, done, front_of};
ghost use Rattle.c_calls.specs.declared.status.CvlStatus.{CvlStatus};

/// A pack by steps: each part counts its true flags; once, the counts say where the elements of each part go, and how many are
/// kept in all; if the room has places for them, each part packs its elements into its range of the room. Then the front of the
/// room is the pack of the whole, no part of the last step has a fault, and what is told is the call's. If the room is too short,
/// so are the answer and what is told, and the room is as before.
pub fn packs_by_steps<X>()
    ensures fits { (start counted placed end : List (Part (X × Bool) ℤ X)) (before now : Layout) (room after : List X) →
        length (elements_of start) ≤ most_places → length start ≤ most_places → length before.places ≡ length start + 1 →
        InParts CountsKept start counted → LaysOut counted (length room) done before now →
        AllZip FillsAlone counted placed → HaveRanges now.places room placed → InParts Packs placed end →
        HaveRanges now.places after end → SameBehind now room after →
        FrontTold (in_limit (flags_in (elements_of start))
        (pack_of (values_in (elements_of start)) (flags_in (elements_of start))))
        done (front_of room before.total) (front_of after now.total) }
    ensures too_short { (start counted : List (Part (X × Bool) ℤ X)) (status : CvlStatus) (before now : Layout) (room : List X) →
        length (elements_of start) ≤ most_places → length start ≤ most_places → length before.places ≡ length start + 1 →
        InParts CountsKept start counted → LaysOut counted (length room) status before now → status ≢ done →
        FrontTold (in_limit (flags_in (elements_of start))
        (pack_of (values_in (elements_of start)) (flags_in (elements_of start))))
        status (front_of room before.total) (front_of room now.total) }
{}

/// A pack of segments keeps what a pack of the whole keeps, once the lengths add up to that of the vectors.
pub fn segments_pack_as_one<X>()
    ensures { (values : List X) (flags : List Bool) (lengths : List ℤ) (segments : List ℕ) → length flags ≤ most_places →
        lengths_of lengths ≡ Ok segments → sum segments ≡ length values → sum segments ≡ length flags →
        by_segments lengths (seg_pack_of values flags) ≡ in_limit flags (pack_of values flags) }
{}
