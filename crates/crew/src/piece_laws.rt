//! What a crew's pieces are once each tile was given to one seat.

ghost use Rattle.std.specs.Prelude.{◌≡◌, ℕ, ◌<◌, List, length};
ghost use Rattle.tile_plan.specs.Pieces.{AreAllPieces};
ghost use Rattle.tile_plan.specs.Ranges.{tile_count, length_of};
ghost use Rattle.crew.specs.Pieces.{ArePiecesOf};

/// If each tile of a plan was given once and has as many items as its range has places, a crew's pieces are all the pieces that
/// the whole list is gathered from.
pub fn pieces_law<T>()
    ensures { (len tile : ℕ) (items : ℕ → List T) (given : ℕ → ℕ) (pieces : List (ℕ × List T)) →
        ArePiecesOf (tile_count len tile) items given pieces →
        ((t : ℕ) → t < tile_count len tile → given t ≡ 1) →
        ((t : ℕ) → t < tile_count len tile → length (items t) ≡ length_of len tile t) →
        AreAllPieces len tile pieces }
{}
