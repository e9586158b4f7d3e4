//! The pass over the tiles of a vector, by workers that race for them.

ghost use Rattle.std.specs.Prelude.{◌≡◌, IfOk, length};
ghost use Rattle.boards.specs.Boards.{IsSeatOf};
ghost use Rattle.tile_scans.specs.Written.{befores_of};

use crate::tile_work::{Lent, TileWork};
use boards::{ScanBoard, ScanSeat, Tiles};
use crew::{Gate, run_crew_for_facts};
use cvl_base::{Memory, Monoid, NoResources};
use sharing::Pace;
use std::thread::Threads;

/// What stands before each tile of a vector: what the tiles before it join to since the last start of a segment. As many workers
/// as the pace says, but no more than there are tiles, race for the tiles, tell their sums and their prefixes, and pass the gate
/// at each point. One worker starts no thread. Only the answer's memory is kept.
///
/// The result has one item for each tile. Source: Merrill and Garland's decoupled look-back.
pub fn race_for_befores<R: Threads + Sync, A: Memory, T: Tiles + Sync, G: Gate>(
    rt: &R,
    alloc: A,
    pace: Pace,
    tiles: &T,
    gate: &G,
) -> Result<Vec<<T::M as Monoid>::Item, A>, NoResources>
where
    T::M: Send + Sync,
    <T::M as Monoid>::Item: Send + Sync,
    ensures { IfOk result (λ before. before.items ≡ befores_of T.M.join T.M.unit (T.sums tiles.now)) }
{
    let count = tiles.count();
    let workers = pace.workers().at_most(count as usize);
    let (board, seats) = ScanBoard::new(alloc, Lent { tiles }, workers.get() as u32)?;
    let work = TileWork { board, tiles };
    let mut seats = run_crew_for_facts(rt, alloc, workers, &work, seats, gate)?;
    befores(alloc, &work.board, &mut seats[0], count)
}

/// What stands before each tile, by a look back from each: one look at a tile whose prefix was told.
fn befores<A: Memory, T: Tiles>(
    alloc: A,
    board: &ScanBoard<T, A>,
    seat: &mut ScanSeat<T::M>,
    count: u32,
) -> Result<Vec<<T::M as Monoid>::Item, A>, NoResources>
    requires seat { IsSeatOf board.now seat.old }
    requires count { count ≡ length board.now.sums }
    ensures { IfOk result (λ before. before.items ≡ befores_of T.M.join T.M.unit board.now.sums) }
{
    let mut before = Vec::with_capacity(alloc, count as usize)?;
    for t in 0..count {
        before.push_reserved(board.look_back(seat, t).before.1);
    }
    Ok(before)
}
