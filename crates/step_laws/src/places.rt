//! Calls by steps whose result has at each place what is made of the operands there, and replaces.

ghost use Rattle.std.specs.Prelude.{◌≡◌, ◌≢◌, ◌≤◌, ◌<◌, ℕ, pos, List, [], ◌∷◌, Ok, Err, Option, length, map, slice_get, Some};
ghost use Rattle.std.specs.List.{slice_set, zip};
ghost use Rattle.cvl_base.specs.declared.fault.Fault.{Fault};
ghost use Rattle.cvl_base.specs.declared.fault.FaultNo.{FaultNo};
ghost use Rattle.cvl_base.specs.Distributes.{distribute_within};
ghost use Rattle.cvl_base.specs.Elementwise.{on_pairs, on_pairs_or, values_from};
ghost use Rattle.cvl_base.specs.Extracts.{replace_of};
ghost use Rattle.cvl_base.specs.Faults.{number_of};
ghost use Rattle.cvl_base.specs.Limits.{most_places};
ghost use Rattle.step_laws.specs.Looks.{Fails};
ghost use Rattle.step_laws.specs.Parts.{HaveRooms, Part, elements_of, room_of};
ghost use Rattle.step_laws.specs.PlaceSteps.{FillsAll, FillsPlaces, LooksAtPlaces};
ghost use Rattle.step_laws.specs.Steps.{InParts};
ghost use Rattle.c_calls.specs.Calls.{in_limit};
ghost use Rattle.c_calls.specs.Told.{RoomTold, done};
ghost use Rattle.c_calls.specs.declared.status.CvlStatus.{CvlStatus};

/// A call place by place, by steps. If some places may lack a value, each part first looks at its own, without a room; once no
/// part finds a fault, each makes its values. Then each place of the whole has its value, and no part of the last step has a
/// fault. If a part finds a fault, the whole has one.
pub fn places_by_steps<X, R, Y>()
    ensures looking { (number : FaultNo) (value : X → Option Y) (start looked end : List (Part X R Y)) →
        number_of number ≢ 7 → length (elements_of start) ≤ most_places → HaveRooms start →
        InParts (LooksAtPlaces number value) start looked → InParts (FillsPlaces number value) looked end →
        RoomTold (in_limit (elements_of start) (values_from number 0 (map value (elements_of start)))) done
        (room_of start) (room_of end) }
    ensures all { (value : X → Y) (start end : List (Part X R Y)) → length (elements_of start) ≤ most_places → HaveRooms start →
        InParts (FillsAll value) start end →
        RoomTold (in_limit (elements_of start) (Ok (map value (elements_of start)))) done (room_of start) (room_of end) }
    ensures faults { (number : FaultNo) (value : X → Option Y) (start : List (Part X R Y)) (k : ℕ) (own : Part X R Y) →
        length (elements_of start) ≤ most_places → slice_get start k ≡ Some own →
        Fails (in_limit own.elements (values_from number 0 (map value own.elements))) →
        (f : Fault) × (in_limit (elements_of start) (values_from number 0 (map value (elements_of start))) ≡ Err f) }
{}

/// A replace by steps: each part copies its elements, and then, once, the value is distributed to the one place of the index.
pub fn replaces_by_steps<R, X>()
    ensures { (start end : List (Part X R X)) (k : ℕ) (value before now : X) (status : CvlStatus) →
        k < length (elements_of start) → length (elements_of start) ≤ most_places → HaveRooms start →
        InParts (FillsAll (λ x. x)) start end → slice_get (room_of end) k ≡ Some before →
        RoomTold (distribute_within most_places value (pos 1)) status (before ∷ []) (now ∷ []) →
        RoomTold (replace_of (elements_of start) (pos k) value) done (room_of start) (slice_set (room_of end) k now) }
{}

/// A call on the pairs of two vectors of the same length is a call on places, whose elements are the pairs.
pub fn pairs_as_places<A, B, Y>()
    ensures some { (number : FaultNo) (operator : A → B → Option Y) (xs : List A) (ys : List B) → length xs ≡ length ys →
        in_limit xs (on_pairs_or number operator xs ys)
        ≡ in_limit (zip xs ys) (values_from number 0 (map (λ p. operator p.0 p.1) (zip xs ys))) }
    ensures all { (operator : A → B → Y) (xs : List A) (ys : List B) → length xs ≡ length ys →
        in_limit xs (on_pairs operator xs ys) ≡ in_limit (zip xs ys) (Ok (map (λ p. operator p.0 p.1) (zip xs ys))) }
{}
