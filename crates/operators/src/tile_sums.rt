//! The laws of the sums of tiles, for code that is generic over its monoid.

ghost use Rattle.std.specs.Prelude.{◌≡◌, ℕ, pos, Bool, true, false, List, [], ◌∷◌};
ghost use Rattle.std.specs.List.{AllPass};
ghost use Rattle.operators.specs.Folds.{fronts, scan_of};
ghost use Rattle.operators.specs.Integers.{sum_of};
ghost use Rattle.operators.specs.SegmentMonoid.{is_seg_item, seg_unit, seg_join};
ghost use Rattle.operators.specs.TileSums.{sum_at, upto, before, between, listed_sums, own_sum, before_tile, upto_tile};
ghost use Rattle.operators.specs.TileSums.{between_tiles, worked_tiles, AllTilesPass, SumsLaws};

use crate::monoid::Monoid;

/// That the sums of tiles are the same if each tile is given only by its sum, as a board and the world of workers have them, and
/// that these sums are items. So [`know_sums`] says how both fit together.
///
/// The call does nothing; its contract names the laws.
pub fn know_listed_sums<M: Monoid>()
    ensures items { (tiles : List (List (Bool × M.Item))) → AllTilesPass (is_seg_item M.is_item) tiles →
        AllPass (is_seg_item M.is_item) (listed_sums M.join M.unit tiles) }
    ensures own { (tiles : List (List (Bool × M.Item))) (t : ℕ) →
        own_sum M.unit (listed_sums M.join M.unit tiles) t ≡ sum_at M.join M.unit tiles t }
    ensures inclusive { (tiles : List (List (Bool × M.Item))) (t : ℕ) → AllTilesPass (is_seg_item M.is_item) tiles →
        upto_tile M.join M.unit (listed_sums M.join M.unit tiles) t ≡ upto M.join M.unit tiles t }
    ensures exclusive { (tiles : List (List (Bool × M.Item))) (t : ℕ) → AllTilesPass (is_seg_item M.is_item) tiles →
        before_tile M.join M.unit (listed_sums M.join M.unit tiles) t ≡ before M.join M.unit tiles t }
    ensures middle { (tiles : List (List (Bool × M.Item))) (first t : ℕ) → AllTilesPass (is_seg_item M.is_item) tiles →
        between_tiles M.join M.unit (listed_sums M.join M.unit tiles) first t ≡ between M.join M.unit tiles first t }
{}

/// How the sums of tiles fit together if each tile is given by its sum: a tile's own sum, that of the tiles before it, and that
/// of the tiles between two, as a look-back nears them.
///
/// The call does nothing; its contract names the laws.
pub fn know_sums<M: Monoid>()
    ensures { (sums : List (Bool × M.Item)) → AllPass (is_seg_item M.is_item) sums → SumsLaws M.is_item M.join M.unit sums }
{}

/// Worked values of the sums of tiles: a tile in which a segment starts doesn't count what stood before it.
pub fn tile_sum_values()
    ensures fronts_of_three { fronts (pos 3 ∷ (pos 1 ∷ (pos 7 ∷ []))) ≡ [] ∷ ((pos 3 ∷ []) ∷ ((pos 3 ∷ (pos 1 ∷ [])) ∷ [])) }
    ensures before_each { scan_of (seg_join sum_of) (seg_unit (pos 0)) ((true, pos 5) ∷ ((false, pos 1) ∷ ((true, pos 7) ∷ [])))
        ≡ (false, pos 0) ∷ ((true, pos 5) ∷ ((true, pos 6) ∷ [])) }
    ensures of_second { sum_at sum_of (pos 0) worked_tiles 1 ≡ (true, pos 14) }
    ensures of_third { sum_at sum_of (pos 0) worked_tiles 2 ≡ (false, pos 1) }
    ensures upto_first { upto sum_of (pos 0) worked_tiles 0 ≡ (true, pos 6) }
    ensures upto_third { upto sum_of (pos 0) worked_tiles 2 ≡ (true, pos 15) }
    ensures before_first { before sum_of (pos 0) worked_tiles 0 ≡ (false, pos 0) }
    ensures before_third { before sum_of (pos 0) worked_tiles 2 ≡ (true, pos 14) }
    ensures between_first_and_third { between sum_of (pos 0) worked_tiles 1 2 ≡ (true, pos 14) }
    ensures listed { listed_sums sum_of (pos 0) worked_tiles ≡ (true, pos 6) ∷ ((true, pos 14) ∷ ((false, pos 1) ∷ [])) }
    ensures listed_before_third { before_tile sum_of (pos 0) (listed_sums sum_of (pos 0) worked_tiles) 2 ≡ (true, pos 14) }
{}
