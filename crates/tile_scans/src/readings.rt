//! What stands before each tile of a flat vector whose elements are read as items.

ghost use Rattle.std.specs.Prelude.{◌≡◌, ◌≤◌, None, IfOk, length, map};
ghost use Rattle.std.specs.List.{AllPass};
ghost use Rattle.cvl_base.specs.Limits.{most_elements};
ghost use Rattle.tile_scans.specs.TiledSums.{flagged, sums_of};
ghost use Rattle.tile_scans.specs.Written.{befores_of};

use crate::race::race_for_befores;
use crate::tiled::Tiled;
use crew::Gate;
use cvl_base::{Memory, NoResources, Packed};
use scan_walks::Reading;
use sharing::Pace;
use std::thread::Threads;

/// What stands before each tile of a vector, in tiles of the pace's length: the items read from the elements before it, joined
/// from left to right. Workers race for the tiles as in [`race_for_befores`](crate::race_for_befores), and pass the gate at each
/// point of their way through a tile.
///
/// The elements must be read as items of the monoid, and are at most 4,194,304. The result has one item for each tile. Source:
/// Merrill and Garland's decoupled look-back.
pub fn befores_of_readings<R, A, M, X, E, G>(
    rt: &R,
    alloc: A,
    pace: Pace,
    a: &[X],
    gate: &G,
) -> Result<Vec<M::Item, A>, NoResources>
where
    R: Threads + Sync,
    A: Memory,
    M: Packed + Send + Sync,
    M::Item: Send + Sync,
    X: Copy + Send + Sync,
    E: Reading<X, M::Item> + Send + Sync,
    G: Gate,
    requires items { AllPass (λ x. M.is_item (E.item x)) a.now }
    requires in_limit { length a.now ≤ most_elements }
    ensures { IfOk result (λ before. before.items ≡ befores_of M.join M.unit
        (sums_of M.join M.unit (length a.now) pace.tile (flagged None (map E.item a.now)))) }
{
    let vector = Tiled::<M, X, E, A>::new(a, None, pace.tile());
    race_for_befores(rt, alloc, pace, &vector, gate)
}
