//! Orders, ranks and sorts by steps.

ghost use Rattle.std.specs.Prelude.{◌≡◌, ◌≤◌, ◌<◌, ℕ, ℤ, pos, List, Ok, length, map};
ghost use Rattle.std.specs.List.{All, AllPass};
ghost use Rattle.cvl_base.specs.ItemWords.{is_number};
ghost use Rattle.cvl_base.specs.Limits.{most_places};
ghost use Rattle.orders.specs.Orders.{order_of, rank_of, sorted_of};
ghost use Rattle.orders.specs.SortsByKey.{ascending, descending, inverted, sort_by_key_of};
ghost use Rattle.stable_sorts.specs.Both.{both};
ghost use Rattle.stable_sorts.specs.Passes.{by_digit};
ghost use Rattle.stable_sorts.specs.declared.keys.Placed.{Placed};
ghost use Rattle.step_laws.specs.Parts.{HaveRooms, Part, befores_of, elements_of, room_of};
ghost use Rattle.step_laws.specs.SortParts.{HasBothRooms, PassPart, ValuesPart, keys_of, placed_of, places_from, result_of};
ghost use Rattle.step_laws.specs.SortParts.{values_of, whole_of};
ghost use Rattle.step_laws.specs.SortSteps.{ByPasses, FindsPasses, FindsPlaces, IsPassBySteps, PlacesKeys, PlacesValues};
ghost use Rattle.step_laws.specs.SortSteps.{Reads, ReadsBoth, digit, passes_in};
ghost use Rattle.step_laws.specs.Steps.{InParts};
ghost use Rattle.c_calls.specs.Calls.{in_limit};
ghost use Rattle.c_calls.specs.Told.{RoomTold, Told, done};

use orders::laws::know_rank;

/// A pass by steps: each part writes its elements in the order of a digit; the pieces are cut between the parts, once; each part
/// gathers its own. Then the ranges together are the elements by their digit, those with the same digit as they stood, however
/// the elements are cut into parts and the pieces between them.
pub fn pass_by_steps<X>()
    ensures { (key : X → ℤ) (pass : ℕ) (start end : List (PassPart X)) → pass < 3 → length (whole_of start) ≤ most_places →
        IsPassBySteps key pass start end → result_of end ≡ by_digit (digit key pass) (whole_of start) }
{}

/// A sort by steps: each part tells which bits are set in all of its keys, and which in any; these say, once, which passes there
/// are; and the passes are made, each of what the one before left. Then the last one leaves the sort of the whole.
pub fn sorts_by_steps()
    ensures { (start : List (Part ℤ (ℤ × ℤ) ℤ)) (bits : ℕ) (room after : List ℤ) →
        AllPass is_number (elements_of start) → length (elements_of start) ≤ most_places →
        length room ≡ length (elements_of start) → FindsPasses start bits →
        ByPasses (λ key. key) (passes_in bits) (elements_of start) after →
        RoomTold (in_limit (elements_of start) (Ok (sorted_of (elements_of start)))) done room after }
{}

/// An order by steps: each part writes its keys beside their places, the passes move these, and each part writes the places of
/// its range. They are the order of the whole.
pub fn orders_by_steps()
    ensures { (start : List (Part ℤ (ℤ × ℤ) ℤ)) (bits : ℕ) (keyed placed : List (Part ℤ ℕ Placed)) (sorted : List Placed)
        (moved end : List (Part Placed ℕ ℤ)) →
        AllPass is_number (elements_of start) → length (elements_of start) ≤ most_places →
        FindsPasses start bits → elements_of keyed ≡ elements_of start →
        befores_of keyed ≡ places_from 0 (map (λ p. p.elements) keyed) → HaveRooms keyed → InParts PlacesKeys keyed placed →
        ByPasses (λ p. p.key) (passes_in bits) (room_of placed) sorted →
        elements_of moved ≡ sorted → HaveRooms moved → InParts (Reads (λ p. p.place)) moved end →
        RoomTold (in_limit (elements_of start) (Ok (map pos (order_of (elements_of start))))) done (room_of moved) (room_of end) }
{}

/// Ranks by steps: each part finds where the order, which [`orders_by_steps`] has, has each place of its range. These are the
/// ranks of the whole.
pub fn ranks_by_steps()
    ensures { (keys order before : List ℤ) (start end : List (Part ℤ ℕ ℤ)) → length keys ≤ most_places →
        RoomTold (in_limit keys (Ok (map pos (order_of keys)))) done before order →
        length (room_of start) ≡ length keys → befores_of start ≡ places_from 0 (map (λ p. p.room) start) →
        InParts (FindsPlaces order) start end →
        RoomTold (in_limit keys (Ok (map pos (rank_of keys)))) done (room_of start) (room_of end) }
{
    know_rank();
}

/// A sort by key by steps: each part writes its keys beside their values, the passes move these, and each part writes the keys
/// and the values of its range. Keys and values together are the sort by key of the whole. In a descending sort the keys are
/// turned by inverting their bits before the passes, and turned back behind them; the passes are those in which the keys as they
/// are differ.
pub fn sorts_by_key_by_steps()
    ensures ascending { (start : List (Part ℤ (ℤ × ℤ) ℤ)) (bits : ℕ) (keyed placed : List (Part (ℤ × ℤ) ℕ Placed))
        (sorted : List Placed) (moved end : List ValuesPart) →
        AllPass is_number (elements_of start) → length (elements_of start) ≤ most_places →
        FindsPasses start bits → map (λ e. e.0) (elements_of keyed) ≡ elements_of start → HaveRooms keyed →
        InParts (PlacesValues (λ key. key)) keyed placed →
        ByPasses (λ p. p.key) (passes_in bits) (room_of placed) sorted →
        placed_of moved ≡ sorted → All HasBothRooms moved → InParts (ReadsBoth (λ key. key)) moved end →
        Told (in_limit (elements_of start)
        (sort_by_key_of ascending (elements_of start) (map (λ e. e.1) (elements_of keyed)))) done
        (both (keys_of moved) (values_of moved)) (both (keys_of end) (values_of end)) }
    ensures descending { (start : List (Part ℤ (ℤ × ℤ) ℤ)) (bits : ℕ) (keyed placed : List (Part (ℤ × ℤ) ℕ Placed))
        (sorted : List Placed) (moved end : List ValuesPart) →
        AllPass is_number (elements_of start) → length (elements_of start) ≤ most_places →
        FindsPasses start bits → map (λ e. e.0) (elements_of keyed) ≡ elements_of start → HaveRooms keyed →
        InParts (PlacesValues inverted) keyed placed →
        ByPasses (λ p. p.key) (passes_in bits) (room_of placed) sorted →
        placed_of moved ≡ sorted → All HasBothRooms moved → InParts (ReadsBoth inverted) moved end →
        Told (in_limit (elements_of start)
        (sort_by_key_of descending (elements_of start) (map (λ e. e.1) (elements_of keyed)))) done
        (both (keys_of moved) (values_of moved)) (both (keys_of end) (values_of end)) }
{}
