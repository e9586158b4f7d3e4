//! Permutes by steps, each part of which writes a range of the result.

ghost use Rattle.std.specs.Prelude.{◌≡◌, ◌≢◌, ◌≤◌, ℕ, ℤ, Err, List, length};
ghost use Rattle.cvl_base.specs.declared.fault.Fault.{Fault};
ghost use Rattle.cvl_base.specs.Limits.{most_places};
ghost use Rattle.cvl_base.specs.Permutes.{default_of, select_of, simple_of};
ghost use Rattle.permute_parts.specs.Counts.{all_sent_of, trues_fit_of};
ghost use Rattle.step_laws.specs.CountSteps.{Counts};
ghost use Rattle.step_laws.specs.Parts.{Part, elements_of, told_of};
ghost use Rattle.step_laws.specs.PermuteSteps.{PlacesMarks, Writes, default_in, flags_by, permute_in, select_in};
ghost use Rattle.step_laws.specs.RangeParts.{BeginAt, HaveDefaults, HaveMarks, RangePart, Settles};
ghost use Rattle.step_laws.specs.RangeParts.{counts_of, defaults_of, room_of};
ghost use Rattle.step_laws.specs.Steps.{InParts};
ghost use Rattle.c_calls.specs.Calls.{in_limit};
ghost use Rattle.c_calls.specs.Told.{Told, done, in_room};
ghost use Rattle.c_calls.specs.declared.status.CvlStatus.{CvlStatus};
ghost use Rattle.flag_calls.specs.Flags.{as_bytes, flags_of};

/// A permute by steps: once, it is laid out where the words of each part's marks begin; each part writes, marks and counts its
/// range of the result; once, a last check says whether the counts add up to the number of places that take part. Whatever the
/// parts answer, the room is the call's result if the last check is done, and otherwise the call has a fault. For a select
/// permute each part first counts the true flags of its share, and a check says once whether the room has a place for each; if
/// not, the call has a fault.
pub fn permutes_by_steps<X>()
    ensures simple { (source : List X) (index : List ℤ) (start end : List (RangePart X)) (before places marks : List ℕ)
        (status : CvlStatus) →
        length source ≡ length index → length index ≤ most_places → length (room_of start) ≡ length index → BeginAt 0 start →
        PlacesMarks start before places → HaveMarks places marks start → InParts (Writes (permute_in source index)) start end →
        Told (all_sent_of (counts_of end) (length index)) status tt tt →
        Settles status (in_room (length (room_of start)) (in_limit index (simple_of source index)))
        (room_of start) (room_of end) }
    ensures select { (source : List X) (index : List ℤ) (shares counted : List (Part ℕ ℤ ℤ))
        (start end : List (RangePart X)) (before places marks : List ℕ) (status : CvlStatus) →
        length source ≡ length index → length index ≡ length (elements_of shares) → length index ≤ most_places →
        length shares ≤ most_places → InParts Counts shares counted →
        Told (trues_fit_of (told_of counted) (length (room_of start))) done tt tt →
        BeginAt 0 start → PlacesMarks start before places → HaveMarks places marks start →
        InParts (Writes (select_in source index (flags_of (elements_of shares)))) start end →
        Told (all_sent_of (counts_of end) (length (room_of start))) status tt tt →
        Settles status
        (in_room (length (room_of start)) (in_limit index (select_of source index (flags_of (elements_of shares)))))
        (room_of start) (room_of end) }
    ensures too_many_or_few { (source : List X) (index : List ℤ) (shares counted : List (Part ℕ ℤ ℤ)) (room : ℕ)
        (status : CvlStatus) →
        length source ≡ length index → length index ≡ length (elements_of shares) → length index ≤ most_places →
        length shares ≤ most_places → InParts Counts shares counted →
        Told (trues_fit_of (told_of counted) room) status tt tt → status ≢ done →
        (f : Fault) × (in_room room (in_limit index (select_of source index (flags_of (elements_of shares)))) ≡ Err f) }
    ensures over_defaults { (source : List X) (index : List ℤ) (start end : List (RangePart X)) (before places marks : List ℕ)
        (status : CvlStatus) →
        length source ≡ length index → length index ≤ most_places → length (room_of start) ≤ most_places → HaveDefaults start →
        BeginAt 0 start → PlacesMarks start before places → HaveMarks places marks start →
        InParts (Writes (default_in source index)) start end → Told (all_sent_of (counts_of end) (length index)) status tt tt →
        Settles status (in_room (length (room_of start)) (in_limit index (default_of source index (defaults_of start))))
        (room_of start) (room_of end) }
{}

/// The same of booleans, which come as bytes, any of which but 0 is true, and of which the result has 0 and 1.
pub fn flag_permutes_by_steps()
    ensures simple { (source : List ℕ) (index : List ℤ) (start end : List (RangePart ℕ)) (before places marks : List ℕ)
        (status : CvlStatus) →
        length source ≡ length index → length index ≤ most_places → length (room_of start) ≡ length index → BeginAt 0 start →
        PlacesMarks start before places → HaveMarks places marks start →
        InParts (Writes (flags_by (permute_in source index))) start end →
        Told (all_sent_of (counts_of end) (length index)) status tt tt →
        Settles status (in_room (length (room_of start)) (as_bytes (in_limit index (simple_of (flags_of source) index))))
        (room_of start) (room_of end) }
    ensures select { (source : List ℕ) (index : List ℤ) (shares counted : List (Part ℕ ℤ ℤ))
        (start end : List (RangePart ℕ)) (before places marks : List ℕ) (status : CvlStatus) →
        length source ≡ length index → length index ≡ length (elements_of shares) → length index ≤ most_places →
        length shares ≤ most_places → InParts Counts shares counted →
        Told (trues_fit_of (told_of counted) (length (room_of start))) done tt tt →
        BeginAt 0 start → PlacesMarks start before places → HaveMarks places marks start →
        InParts (Writes (flags_by (select_in source index (flags_of (elements_of shares))))) start end →
        Told (all_sent_of (counts_of end) (length (room_of start))) status tt tt →
        Settles status
        (in_room (length (room_of start))
        (as_bytes (in_limit index (select_of (flags_of source) index (flags_of (elements_of shares))))))
        (room_of start) (room_of end) }
    ensures too_many_or_few { (source : List ℕ) (index : List ℤ) (shares counted : List (Part ℕ ℤ ℤ)) (room : ℕ)
        (status : CvlStatus) →
        length source ≡ length index → length index ≡ length (elements_of shares) → length index ≤ most_places →
        length shares ≤ most_places → InParts Counts shares counted →
        Told (trues_fit_of (told_of counted) room) status tt tt → status ≢ done →
        (f : Fault)
        × (in_room room (as_bytes (in_limit index (select_of (flags_of source) index (flags_of (elements_of shares))))) ≡ Err f) }
    ensures over_defaults { (source : List ℕ) (index : List ℤ) (start end : List (RangePart ℕ)) (before places marks : List ℕ)
        (status : CvlStatus) →
        length source ≡ length index → length index ≤ most_places → length (room_of start) ≤ most_places → HaveDefaults start →
        BeginAt 0 start → PlacesMarks start before places → HaveMarks places marks start →
        InParts (Writes (flags_by (default_in source index))) start end →
        Told (all_sent_of (counts_of end) (length index)) status tt tt →
        Settles status
        (in_room (length (room_of start))
        (as_bytes (in_limit index (default_of (flags_of source) index (flags_of (defaults_of start))))))
        (room_of start) (room_of end) }
{}
