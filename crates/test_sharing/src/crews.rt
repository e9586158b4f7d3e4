//! A crew whose workers make the pieces of a list, and the list that is gathered from them.

use crate::counter::Counter;
use crate::tiles::CountedTiles;
use boards::{Claim, ScanBoard, ScanSeat, Tiles};
use crew::{Gate, OpenGate, Work, pieces_law, run_crew};
use cvl_base::{Memory, Monoid, NoResources};
use sharing::ThreadCount;
use std::alloc::Allocator;
use std::thread::Threads;
use tile_plan::{Plan, gather};

/// A work that makes one item of each tile: what the tiles before it join to.
#[derive(Drop)]
struct Befores<T: Tiles, A: Allocator> {
    board: ScanBoard<T, A>,
}

impl<T: Tiles + Sync, A: Memory> Work for Befores<T, A>
where
    T::M: Send + Sync,
    <T::M as Monoid>::Item: Send + Sync,
{
    ghost use Rattle.std.specs.Prelude.{◌∷◌, [], length};
    ghost use Rattle.boards.specs.Boards.{IsSeatOf};
    ghost use Rattle.cvl_base.specs.TileSums.{before_tile};

    type Seat = ScanSeat<T::M>;

    type Item = <T::M as Monoid>::Item;

    ghost count = { λ work. length work.board.sums };

    ghost items = { λ work t. (before_tile T.M.join T.M.unit work.board.sums t).1 ∷ [] };

    ghost IsSeat = { λ work seat. IsSeatOf work.board seat };

    ghost given = { λ seat. seat.pass.hand.given };

    ghost is_done = { λ seat. seat.is_done };

    ghost HasFact = { λ work seat _. IsSeatOf work.board seat };

    fn claim(&self, seat: &mut ScanSeat<T::M>) -> Claim {
        self.board.claim(seat)
    }

    fn tile<B: Memory, G: Gate>(
        &self,
        alloc: B,
        seat: &mut ScanSeat<T::M>,
        _worker: u32,
        t: u32,
        _gate: &G,
    ) -> Result<Vec<<T::M as Monoid>::Item, B>, NoResources> {
        self.board.tell_sum(seat, t);
        let before = self.board.look_back(seat, t).before;
        self.board.tell_prefix(seat, t, before);
        let mut items = Vec::with_capacity(alloc, 1)?;
        items.push_reserved(before.1);
        Ok(items)
    }
}

/// How many numbers were given to so many workers, and the sum of those before each.
fn sums_before<R: Threads + Sync, A: Memory>(
    rt: &R,
    alloc: A,
    workers: ThreadCount,
    tiles: CountedTiles<'_>,
) -> Result<(u32, Vec<i32, A>), NoResources> {
    let plan = Plan::new(tiles.count(), 1);
    let (board, seats) = ScanBoard::new(alloc, tiles, workers.get() as u32)?;
    let work = Befores { board };
    let crewed = run_crew(rt, alloc, workers, &work, seats, &OpenGate)?;
    let Befores { board } = work;
    let ended = board.close(crewed.seats);
    pieces_law::<i32>();
    let sums = gather(rt, alloc, workers, plan, crewed.pieces)?;
    Ok((ended.given, sums))
}

/// Whether the sums before each of the first so many numbers are those worked out by hand, and each number was given.
pub fn are_summed<R: Threads + Sync, A: Memory>(
    rt: &R,
    alloc: A,
    workers: ThreadCount,
    count: usize,
) -> Result<bool, NoResources> {
    let (numbers, _) = [3, 1, 7, 0].as_slice().split_at(count.min(4));
    let (right, _) = [0, 3, 4, 11].as_slice().split_at(count.min(4));
    let counter = Counter::new(0);
    let tiles = CountedTiles::new(numbers, &counter);
    let (given, sums) = sums_before(rt, alloc, workers, tiles)?;
    Ok(given as usize == count && sums.as_slice() == right)
}
