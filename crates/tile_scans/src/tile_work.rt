//! The work of each worker who races for the tiles of a vector.

ghost use Rattle.std.specs.Prelude.{◌≡◌, [], length};
ghost use Rattle.boards.specs.Boards.{IsSeatOf};
ghost use Rattle.tile_scans.specs.Told.{HasToldAround};

use boards::{Claim, ScanBoard, ScanSeat, Tiles};
use crew::{Gate, Point, Work};
use cvl_base::{Memory, Monoid, NoResources};
use std::alloc::Allocator;

/// The tiles of a vector, lent to a board.
#[derive(Drop)]
pub(crate) struct Lent<'a, T: Tiles> {
    pub(crate) tiles: &'a T,
}

impl<'a, T: Tiles> Tiles for Lent<'a, T> {
    type M = T::M;

    ghost sums = { λ lent. T.sums lent.tiles.now };

    fn count(&self) -> u32 {
        self.tiles.count()
    }

    fn sum(&self, t: u32) -> (bool, <T::M as Monoid>::Item) {
        self.tiles.sum(t)
    }
}

/// The work of all who race for the tiles of a vector, on a board that gives the tiles. What is told about a tile is all that is
/// made of it.
#[derive(Drop)]
pub(crate) struct TileWork<'a, T: Tiles, A: Allocator> {
    pub(crate) board: ScanBoard<Lent<'a, T>, A>,
    pub(crate) tiles: &'a T,
}

impl<'a, T: Tiles + Sync, A: Memory> Work for TileWork<'a, T, A>
where
    T::M: Send + Sync,
    <T::M as Monoid>::Item: Send + Sync,
{
    type Seat = ScanSeat<T::M>;

    type Item = <T::M as Monoid>::Item;

    ghost count = { λ work. length (T.sums work.tiles.now) };

    ghost items = { λ _ _. [] };

    ghost IsSeat = { λ work seat. IsSeatOf work.board seat × (work.board.sums ≡ T.sums work.tiles.now) };

    ghost given = { λ seat. seat.pass.hand.given };

    ghost is_done = { λ seat. seat.is_done };

    ghost HasFact = { λ work seat t. HasToldAround seat t };

    fn claim(&self, seat: &mut ScanSeat<T::M>) -> Claim {
        self.board.claim(seat)
    }

    fn tile<B: Memory, G: Gate>(
        &self,
        alloc: B,
        seat: &mut ScanSeat<T::M>,
        worker: u32,
        t: u32,
        gate: &G,
    ) -> Result<Vec<<T::M as Monoid>::Item, B>, NoResources> {
        let sum = self.tiles.sum(t);
        self.board.tell_known_sum(seat, t, sum);
        gate.pass(worker, Point::Summed(t));
        // the tile's sum is told, so that nobody else has to add the tile up meanwhile
        let before = self.board.look_back(seat, t).before;
        gate.pass(worker, Point::Looked(t));
        self.board.tell_known_prefix(seat, t, before, sum);
        Ok(Vec::new(alloc))
    }
}
