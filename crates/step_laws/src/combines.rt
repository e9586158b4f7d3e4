//! Combining permutes, counts and exact sums by place by steps.

ghost use Rattle.std.specs.Prelude.{◌≡◌, ◌≢◌, ◌<◌, ◌≤◌, ◌+ℤ◌, ℕ, ℤ, pos, Bool, List, [], Ok, Err, Some, length, slice_get};
ghost use Rattle.std.specs.List.{AllPass};
ghost use Rattle.c_calls.specs.Calls.{by_operator, in_limit};
ghost use Rattle.c_calls.specs.Numbers.{bool_binary, int_monoid};
ghost use Rattle.c_calls.specs.Told.{Told, done};
ghost use Rattle.c_calls.specs.declared.status.CvlStatus.{CvlStatus};
ghost use Rattle.call_table.specs.declared.families.BoolBinary.{BoolBinary};
ghost use Rattle.call_table.specs.declared.families.IntMonoid.{IntMonoid};
ghost use Rattle.combine_parts.specs.Calls.{own_bool_room_by, own_int_room_by};
ghost use Rattle.combine_parts.specs.CheckedSums.{all_fit, range_sums_of, share_sums_of};
ghost use Rattle.combine_parts.specs.Cuts.{CutTold, are_places_of, may_cut};
ghost use Rattle.combine_parts.specs.OwnRooms.{OwnTold, own_counts_of, own_room_of};
ghost use Rattle.combining_permutes.specs.CombiningPermutes.{combine_of, place_counts_of};
ghost use Rattle.cvl_base.specs.declared.fault.Fault.{Fault};
ghost use Rattle.cvl_base.specs.ItemWords.{is_number};
ghost use Rattle.cvl_base.specs.Limits.{most_places};
ghost use Rattle.cvl_base.specs.Scans.{bool_join_of, int_join_of};
ghost use Rattle.permute_walks.specs.Indices.{first_outside};
ghost use Rattle.exact_combines.specs.ExactCombines.{checked_combine_of, exact_sums_of};
ghost use Rattle.step_laws.specs.CombineParts.{BeginAt, Block, HaveIndices, HaveMemory, HaveRanges, Share};
ghost use Rattle.step_laws.specs.CombineParts.{elements_of, index_of, room_of};
ghost use Rattle.step_laws.specs.CombineSteps.{AddsToRange, BoolJoinsOwn, BoolJoinsRange, BoolJoinsRooms};
ghost use Rattle.step_laws.specs.CombineSteps.{JoinsChecked, JoinsSums, MayGrow, Narrows, SumsOwn, SumsRange};
ghost use Rattle.step_laws.specs.CombineSteps.{CountsOwn, CountsRange, JoinsCounts};
ghost use Rattle.step_laws.specs.CombineSteps.{IntJoinsOwn, IntJoinsRange, IntJoinsRooms, LooksAtIndices};
ghost use Rattle.step_laws.specs.Steps.{InParts};

/// A combining permute by rooms of the parts' own: each part joins its elements in a room of its own, which begins with what the
/// operator gives of nothing; then each share of the room is joined with the same places of all rooms, in the order of the
/// parts. Whatever these shares answer, the room is what stood in it, joined with all elements that are sent there. The
/// boundaries of the parts' memory may be any that leave each part as many places as the room has.
pub fn combines_by_rooms()
    ensures integers { (op : ℕ) (boundaries : List ℕ) (memory : List ℤ) (start made : List (Block ℤ ℤ))
        (before after : List (Share ℤ)) →
        0 < length start → AllPass is_number (elements_of start) → AllPass is_number (room_of before) →
        length (index_of start) ≤ most_places → length (room_of before) ≤ most_places → BeginAt 0 before →
        InParts (IntJoinsOwn op (length (room_of before))) start made → HaveMemory boundaries memory made →
        InParts (IntJoinsRooms op boundaries memory) before after →
        Told (by_operator (int_monoid op) (λ o. in_limit (index_of start) (in_limit (room_of before)
        (combine_of (int_join_of o) (elements_of start) (index_of start) (room_of before))))) done
        (room_of before) (room_of after) }
    ensures booleans { (op : ℕ) (boundaries : List ℕ) (memory : List Bool) (start made : List (Block Bool Bool))
        (before after : List (Share Bool)) →
        0 < length start → length (index_of start) ≤ most_places → length (room_of before) ≤ most_places → BeginAt 0 before →
        InParts (BoolJoinsOwn op (length (room_of before))) start made → HaveMemory boundaries memory made →
        InParts (BoolJoinsRooms op boundaries memory) before after →
        Told (by_operator (bool_binary op) (λ o. in_limit (index_of start) (in_limit (room_of before)
        (combine_of (bool_join_of o) (elements_of start) (index_of start) (room_of before))))) done
        (room_of before) (room_of after) }
{}

/// A combining permute by ranges of its room: each part looks whether its indices are places of the room; once, the room is cut
/// into ranges; then each range is joined with all elements that are sent there. Whatever the ranges' parts answer and count, the
/// room is what stood in it, joined with all elements that are sent there. An operator has the number.
pub fn combines_by_ranges()
    ensures integers { (op : ℕ) (o : IntMonoid) (start looked : List (Block ℤ ℤ)) (cut cuts : List ℕ) (room : List ℤ)
        (before after : List (Share ℤ)) → int_monoid op ≡ Ok o → HaveIndices start →
        length (index_of start) ≤ most_places → length room ≤ most_places →
        InParts (LooksAtIndices (length room)) start looked → CutTold (may_cut (length cut)) (length room) done cut cuts →
        0 < length cuts → HaveRanges cuts room before →
        InParts (IntJoinsRange op (elements_of start) (index_of start)) before after →
        Told (in_limit (index_of start) (in_limit room
        (combine_of (int_join_of o) (elements_of start) (index_of start) room))) done room (room_of after) }
    ensures booleans { (op : ℕ) (o : BoolBinary) (start looked : List (Block Bool Bool)) (cut cuts : List ℕ) (room : List Bool)
        (before after : List (Share Bool)) → bool_binary op ≡ Ok o → HaveIndices start →
        length (index_of start) ≤ most_places → length room ≤ most_places →
        InParts (LooksAtIndices (length room)) start looked → CutTold (may_cut (length cut)) (length room) done cut cuts →
        0 < length cuts → HaveRanges cuts room before →
        InParts (BoolJoinsRange op (elements_of start) (index_of start)) before after →
        Told (in_limit (index_of start) (in_limit room
        (combine_of (bool_join_of o) (elements_of start) (index_of start) room))) done room (room_of after) }
{}

/// Counts by place, by rooms of the parts' own: each part counts its indices in a room of its own; then the counts of all parts
/// are added up in each share of the room, whatever stood there. No count wraps. If a part that counts its indices has a fault,
/// so has the call.
pub fn place_counts_by_rooms<X>()
    ensures counted { (boundaries : List ℕ) (memory : List ℤ) (start made : List (Block X ℤ)) (before after : List (Share ℤ)) →
        length (index_of start) ≤ most_places → length (room_of before) ≤ most_places → BeginAt 0 before →
        InParts (CountsOwn (length (room_of before))) start made → HaveMemory boundaries memory made →
        InParts (JoinsCounts boundaries memory) before after →
        Told (in_limit (index_of start) (in_limit (room_of before) (place_counts_of (index_of start) (length (room_of before)))))
        done (room_of before) (room_of after) }
    ensures faults { (k : ℕ) (start : List (Block X ℤ)) (own : Block X ℤ) (room left : List ℤ) (status : CvlStatus) →
        slice_get start k ≡ Some own → length (index_of start) ≤ most_places → length room ≤ most_places →
        length room ≤ length own.own →
        OwnTold (length room) (own_counts_of (length room) (length own.own) own.index) status own.own left → status ≢ done →
        (f : Fault) × (in_limit (index_of start) (in_limit room (place_counts_of (index_of start) (length room))) ≡ Err f) }
{}

/// Counts by place, by ranges of the room, as [`combines_by_ranges`].
pub fn place_counts_by_ranges<X>()
    ensures { (start looked : List (Block X ℤ)) (cut cuts : List ℕ) (room : List ℤ) (before after : List (Share ℤ)) →
        length (index_of start) ≤ most_places → length room ≤ most_places →
        InParts (LooksAtIndices (length room)) start looked → CutTold (may_cut (length cut)) (length room) done cut cuts →
        0 < length cuts → HaveRanges cuts room before → InParts (CountsRange (index_of start)) before after →
        Told (in_limit (index_of start) (in_limit room (place_counts_of (index_of start) (length room)))) done
        room (room_of after) }
{}

/// Exact sums by place in 64 bits, by rooms of the parts' own: each share of the room finds that its sums may grow; each part
/// adds up its integers in a room of its own; then the sums of all parts are added to each share. No sum wraps. If a part that
/// adds up its integers has a fault, so has the call.
pub fn exact_sums_by_rooms()
    ensures summed { (boundaries : List ℕ) (memory : List ℤ) (start made : List (Block ℤ ℤ))
        (first before after : List (Share ℤ)) →
        AllPass is_number (elements_of start) → length (index_of start) ≤ most_places → length (room_of first) ≤ most_places →
        BeginAt 0 first → InParts MayGrow first before →
        InParts (SumsOwn (length (room_of first))) start made → HaveMemory boundaries memory made →
        InParts (JoinsSums boundaries memory) before after →
        Told (in_limit (index_of start) (in_limit (room_of first)
        (exact_sums_of (elements_of start) (index_of start) (room_of first)))) done (room_of first) (room_of after) }
    ensures faults { (k : ℕ) (start : List (Block ℤ ℤ)) (own : Block ℤ ℤ) (room left : List ℤ) (status : CvlStatus) →
        slice_get start k ≡ Some own → HaveIndices start → length (index_of start) ≤ most_places → length room ≤ most_places →
        length room ≤ length own.own →
        OwnTold (length room) (own_room_of ◌+ℤ◌ (pos 0) (length room) (length own.own) own.elements own.index) status
        own.own left → status ≢ done →
        (f : Fault) × (in_limit (index_of start) (in_limit room
        (exact_sums_of (elements_of start) (index_of start) room)) ≡ Err f) }
{}

/// Exact sums by place in 64 bits, by ranges of the room, as [`combines_by_ranges`]: each range finds that its sums may grow.
pub fn exact_sums_by_ranges()
    ensures { (start looked : List (Block ℤ ℤ)) (cut cuts : List ℕ) (room : List ℤ) (first before after : List (Share ℤ)) →
        HaveIndices start → length (index_of start) ≤ most_places → length room ≤ most_places →
        InParts (LooksAtIndices (length room)) start looked → CutTold (may_cut (length cut)) (length room) done cut cuts →
        0 < length cuts → HaveRanges cuts room first → InParts MayGrow first before →
        InParts (AddsToRange (elements_of start) (index_of start)) before after →
        Told (in_limit (index_of start) (in_limit room (exact_sums_of (elements_of start) (index_of start) room))) done
        room (room_of after) }
{}

/// Sums by place that have to fit 32 bits, by rooms of the parts' own: each part adds up its integers in a room of its own; what
/// stood in each share of the room, plus the sums of all parts, is made in memory of the call's own, and looked at; if no part
/// finds one that does not fit, each share becomes its sums. Then no sum of the whole is outside 32 bits. If a part that adds up
/// its integers has a fault, or a share finds a sum that does not fit, the call has a fault.
pub fn checked_combines_by_rooms()
    ensures summed { (boundaries : List ℕ) (memory : List ℤ) (start made : List (Block ℤ ℤ))
        (before summed after : List (Share ℤ)) →
        AllPass is_number (elements_of start) → AllPass is_number (room_of before) →
        length (index_of start) ≤ most_places → length (room_of before) ≤ most_places → BeginAt 0 before →
        InParts (SumsOwn (length (room_of before))) start made → HaveMemory boundaries memory made →
        InParts (JoinsChecked boundaries memory) before summed → InParts Narrows summed after →
        Told (in_limit (index_of start) (in_limit (room_of before)
        (checked_combine_of (elements_of start) (index_of start) (room_of before)))) done (room_of before) (room_of after) }
    ensures faults { (k : ℕ) (start : List (Block ℤ ℤ)) (own : Block ℤ ℤ) (room left : List ℤ) (status : CvlStatus) →
        slice_get start k ≡ Some own → HaveIndices start → length (index_of start) ≤ most_places → length room ≤ most_places →
        length room ≤ length own.own →
        OwnTold (length room) (own_room_of ◌+ℤ◌ (pos 0) (length room) (length own.own) own.elements own.index) status
        own.own left → status ≢ done →
        (f : Fault) × (in_limit (index_of start) (in_limit room
        (checked_combine_of (elements_of start) (index_of start) room)) ≡ Err f) }
    ensures overflows { (boundaries : List ℕ) (memory : List ℤ) (start made : List (Block ℤ ℤ)) (before : List (Share ℤ))
        (k : ℕ) (own : Share ℤ) (status : CvlStatus) →
        AllPass is_number (elements_of start) → AllPass is_number (room_of before) →
        length (index_of start) ≤ most_places → length (room_of before) ≤ most_places → BeginAt 0 before →
        InParts (SumsOwn (length (room_of before))) start made → HaveMemory boundaries memory made →
        slice_get before k ≡ Some own → length own.sums ≡ length own.room →
        Told (all_fit (share_sums_of own.from boundaries memory own.room (length own.sums))) status tt tt → status ≢ done →
        (f : Fault) × (in_limit (index_of start) (in_limit (room_of before)
        (checked_combine_of (elements_of start) (index_of start) (room_of before))) ≡ Err f) }
{}

/// Sums by place that have to fit 32 bits, by ranges of the room, as [`combines_by_ranges`]: the sums of each range are made in
/// memory of the call's own, and looked at before the room is written. If a range finds one that does not fit, the call has a
/// fault.
pub fn checked_combines_by_ranges()
    ensures summed { (start looked : List (Block ℤ ℤ)) (cut cuts : List ℕ) (room : List ℤ)
        (before summed after : List (Share ℤ)) →
        HaveIndices start → length (index_of start) ≤ most_places → length room ≤ most_places →
        InParts (LooksAtIndices (length room)) start looked → CutTold (may_cut (length cut)) (length room) done cut cuts →
        0 < length cuts → HaveRanges cuts room before →
        InParts (SumsRange (elements_of start) (index_of start)) before summed → InParts Narrows summed after →
        Told (in_limit (index_of start) (in_limit room (checked_combine_of (elements_of start) (index_of start) room))) done
        room (room_of after) }
    ensures overflows { (start : List (Block ℤ ℤ)) (cut cuts : List ℕ) (room : List ℤ) (before : List (Share ℤ)) (k : ℕ)
        (own : Share ℤ) (status : CvlStatus) →
        HaveIndices start → length (index_of start) ≤ most_places → length room ≤ most_places →
        CutTold (may_cut (length cut)) (length room) done cut cuts → 0 < length cuts → HaveRanges cuts room before →
        slice_get before k ≡ Some own → length own.sums ≡ length own.room →
        Told (all_fit (range_sums_of (elements_of start) (index_of start) own.from own.room (length own.sums))) status tt tt →
        status ≢ done →
        (f : Fault) × (in_limit (index_of start) (in_limit room
        (checked_combine_of (elements_of start) (index_of start) room)) ≡ Err f) }
{}

/// If a part that joins its elements in a room of its own has a fault, so has the call. Parts have an index for each element,
/// and memory for the room.
pub fn combine_faults()
    ensures integers { (op k : ℕ) (start : List (Block ℤ ℤ)) (own : Block ℤ ℤ) (room left : List ℤ) (status : CvlStatus) →
        slice_get start k ≡ Some own → HaveIndices start → length (index_of start) ≤ most_places → length room ≤ most_places →
        length room ≤ length own.own →
        OwnTold (length room) (own_int_room_by op (length room) (length own.own) own.elements own.index) status own.own left →
        status ≢ done →
        (f : Fault) × (by_operator (int_monoid op) (λ o. in_limit (index_of start) (in_limit room
        (combine_of (int_join_of o) (elements_of start) (index_of start) room))) ≡ Err f) }
    ensures booleans { (op k : ℕ) (start : List (Block Bool Bool)) (own : Block Bool Bool) (room left : List Bool)
        (status : CvlStatus) →
        slice_get start k ≡ Some own → HaveIndices start → length (index_of start) ≤ most_places → length room ≤ most_places →
        length room ≤ length own.own →
        OwnTold (length room) (own_bool_room_by op (length room) (length own.own) own.elements own.index) status own.own left →
        status ≢ done →
        (f : Fault) × (by_operator (bool_binary op) (λ o. in_limit (index_of start) (in_limit room
        (combine_of (bool_join_of o) (elements_of start) (index_of start) room))) ≡ Err f) }
{}

/// If a part finds an index that is no place, so does the call.
pub fn index_faults<X, Y>()
    ensures { (k places : ℕ) (start : List (Block X Y)) (own : Block X Y) (status : CvlStatus) →
        slice_get start k ≡ Some own → length (index_of start) ≤ most_places →
        Told (are_places_of places own.index) status tt tt → status ≢ done →
        (f : Fault) × (first_outside 0 places (index_of start) ≡ Some f) }
{}

/// If a share finds a sum that may not grow, the call has a fault.
pub fn growth_faults()
    ensures { (k : ℕ) (shares : List (Share ℤ)) (own : Share ℤ) (source index left : List ℤ) (status : CvlStatus) →
        slice_get shares k ≡ Some own → length index ≤ most_places → length (room_of shares) ≤ most_places →
        Told (in_limit {X = ℤ} [] (in_limit own.room (exact_sums_of [] [] own.room))) status own.room left → status ≢ done →
        (f : Fault) × (in_limit index (in_limit (room_of shares) (exact_sums_of source index (room_of shares))) ≡ Err f) }
{}
