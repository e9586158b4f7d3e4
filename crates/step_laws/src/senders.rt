//! First senders by steps, each part of which writes a range of the result.

ghost use Rattle.std.specs.Prelude.{◌≡◌, ◌≤◌, ℕ, ℤ, List, length};
ghost use Rattle.cvl_base.specs.Limits.{most_places};
ghost use Rattle.first_senders.specs.FirstSenders.{first_senders_of, select_first_senders_of};
ghost use Rattle.permute_parts.specs.Counts.{all_flagged_of, all_sent_of};
ghost use Rattle.step_laws.specs.CountSteps.{Counts};
ghost use Rattle.step_laws.specs.Parts.{Part, elements_of, told_of};
ghost use Rattle.step_laws.specs.RangeParts.{BeginAt, RangePart, Settles, counts_of, room_of};
ghost use Rattle.step_laws.specs.SenderSteps.{FindsSenders, select_senders_in, senders_in};
ghost use Rattle.step_laws.specs.Steps.{InParts};
ghost use Rattle.c_calls.specs.Calls.{in_limit};
ghost use Rattle.c_calls.specs.Told.{Told};
ghost use Rattle.c_calls.specs.declared.status.CvlStatus.{CvlStatus};
ghost use Rattle.flag_calls.specs.Flags.{flags_of};

/// First senders by steps: each part writes those of its range and counts the indices that name a place of it; once, a last check
/// says whether the counts add up to the number of places that take part, which with flags each part has counted in its share of
/// them. Whatever the parts of the range answer, the room is the call's result if the last check is done, and otherwise the call
/// has a fault.
pub fn senders_by_steps()
    ensures all { (index : List ℤ) (start end : List (RangePart ℤ)) (status : CvlStatus) →
        length index ≤ most_places → length (room_of start) ≤ most_places → BeginAt 0 start →
        InParts (FindsSenders (senders_in index)) start end → Told (all_sent_of (counts_of end) (length index)) status tt tt →
        Settles status (in_limit index (first_senders_of index (length (room_of start)))) (room_of start) (room_of end) }
    ensures flagged { (index : List ℤ) (shares counted : List (Part ℕ ℤ ℤ)) (start end : List (RangePart ℤ))
        (status : CvlStatus) →
        length index ≡ length (elements_of shares) → length index ≤ most_places → length (room_of start) ≤ most_places →
        length shares ≤ most_places → InParts Counts shares counted → BeginAt 0 start →
        InParts (FindsSenders (select_senders_in index (flags_of (elements_of shares)))) start end →
        Told (all_flagged_of (counts_of end) (told_of counted)) status tt tt →
        Settles status (in_limit index (select_first_senders_of index (flags_of (elements_of shares)) (length (room_of start))))
        (room_of start) (room_of end) }
{}
