//! The loop of one worker.

ghost use Rattle.std.specs.Prelude.{◌≡◌, ℕ, List, [], ◌∷◌, ◌++◌, IfOk, IsTrue, OnOk, map};
ghost use Rattle.boards.specs.Passes.{times};
ghost use Rattle.crew.specs.Facts.{HasFacts};
ghost use Rattle.crew.specs.Pieces.{ArePiecesOf};

use crate::gate::{Gate, Point};
use crate::work::Work;
use boards::Claim;
use cvl_base::{Memory, NoResources};
use tile_plan::Piece;

/// The pieces of the tiles that are given to the seat, until none is left; no pieces if none are to be kept. Each
/// claim gives a tile that the seat didn't have, so there are at most as many as the work has tiles. The seat then has the fact
/// of each.
pub(crate) fn take_tiles<A: Memory, W: Work, G: Gate>(
    alloc: A,
    work: &W,
    worker: u32,
    seat: &mut W::Seat,
    with_pieces: bool,
    gate: &G,
) -> Result<Vec<Piece<W::Item, A>, A>, NoResources>
    requires of_board { W.IsSeat work.now seat.old }
    requires fresh { W.given seat.old ≡ [] }
    ensures of_board { W.IsSeat work.now seat.new }
    ensures done { OnOk result (IsTrue (W.is_done seat.new)) }
    ensures facts { OnOk result (HasFacts (W.HasFact work.now) W.given seat.new) }
    ensures pieces { IfOk result (λ pieces. IsTrue with_pieces → ArePiecesOf (W.count work.now) (W.items work.now)
        (λ t. times t (W.given seat.new))
        (map (λ p. (p.tile, p.items.items)) pieces.items)) }
{
    let mut pieces = Vec::new(alloc);
    while let Claim::Tile(t) = work.claim(seat) {
        gate.pass(worker, Point::Claimed(t));
        let items = work.tile(alloc, seat, worker, t, gate)?;
        gate.pass(worker, Point::Finished(t));
        keep(&mut pieces, with_pieces, t, items)?;
    }
    Ok(pieces)
}

/// Adds the piece of a tile, if pieces are kept.
fn keep<T: Drop, A: Memory>(
    pieces: &mut Vec<Piece<T, A>, A>,
    with_pieces: bool,
    tile: u32,
    items: Vec<T, A>,
) -> Result<(), NoResources>
    ensures { OnOk result (IsTrue with_pieces → map {B = ℕ × List T} (λ p. (p.tile, p.items.items)) pieces.new.items
        ≡ map {B = ℕ × List T} (λ p. (p.tile, p.items.items)) pieces.old.items ++ (tile, items.items) ∷ []) }
{
    if with_pieces {
        pieces.push(Piece { tile, items })?;
    }
    Ok(())
}
