//! Workers race for the tiles of a vector, and lower the places that have a slot.

ghost use Rattle.std.specs.Prelude.{◌≡◌, IfOk};
ghost use Rattle.least_boards.specs.Slots.{least_from, leasts_of};

use crate::least_work::{LeastWork, LentTargets};
use crew::{Gate, run_crew_for_facts};
use cvl_base::{Memory, NoResources};
use least_boards::{LeastBoard, Leasts, Targets};
use sharing::Pace;
use std::thread::Threads;
use tile_plan::Plan;

/// The least place of each slot. As many workers as the pace says, but no more than there are tiles, race for tiles of the pace's
/// length, and pass the gate at `Claimed` and `Finished` of each. One worker starts no thread.
pub fn race_for_leasts<R: Threads + Sync, A: Memory, T: Targets + Sync, G: Gate>(
    rt: &R,
    alloc: A,
    pace: Pace,
    targets: &T,
    gate: &G,
) -> Result<Leasts<A>, NoResources>
    ensures { IfOk result (λ leasts. leasts ≡ leasts_of (T.targets targets.now) (T.slot_count targets.now)) }
{
    let plan = Plan::new(targets.places(), pace.tile());
    let workers = pace.workers().at_most(plan.count() as usize);
    let lent = LentTargets { targets };
    let (board, seats) = LeastBoard::new(alloc, lent, plan, workers.get() as u32)?;
    let work = LeastWork {
        board,
        targets,
        plan,
    };
    let seats = run_crew_for_facts(rt, alloc, workers, &work, seats, gate)?;
    let LeastWork { board, .. } = work;
    Ok(board.close(seats))
}

/// The least place that has a slot, if there is at most one slot: the same race for one word.
pub fn race_for_least<R: Threads + Sync, A: Memory, T: Targets + Sync, G: Gate>(
    rt: &R,
    alloc: A,
    pace: Pace,
    targets: &T,
    gate: &G,
) -> Result<Option<u32>, NoResources>
    requires one { T.slot_count targets.now ≡ 1 }
    ensures { IfOk result (λ least. least ≡ least_from 0 (T.targets targets.now) 0) }
{
    let leasts = race_for_leasts(rt, alloc, pace, targets, gate)?;
    Ok(leasts.get(0))
}
