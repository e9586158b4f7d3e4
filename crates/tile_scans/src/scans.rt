//! Scans by any monoid.

ghost use Rattle.std.specs.Prelude.{◌≡◌, IfOk, length, map, vec_len};
ghost use Rattle.std.specs.List.{AllPass};
ghost use Rattle.cvl_base.specs.Folds.{scan_of};
ghost use Rattle.cvl_base.specs.Gives.{Gives};
ghost use Rattle.cvl_base.specs.SegmentedCalls.{seg_scan_of};

use crate::pace::scan_pace;
use crate::race::race_for_befores;
use crate::tiled::Tiled;
use crew::Gate;
use cvl_base::monoid::know_laws;
use cvl_base::{Config, Memory, NoResources, Packed, Refused};
use scan_walks::{Itself, Reading, scan_vec, seg_scan_vec};
use segdes::{SegDes, check_total};
use std::thread::Threads;

/// The exclusive scan: element `k` of the result joins the elements before place `k`, from left to right, and is the
/// unit at place 0.
///
/// The elements must be items of the monoid. The result is as long as they are. Source: Blelloch's prescan.
///
/// Workers who race pass `gate` at each point of their way through a tile.
pub fn scan<R: Threads + Sync, A: Memory, M: Packed + Send + Sync, G: Gate>(
    rt: &R,
    alloc: A,
    config: Config,
    a: &[M::Item],
    gate: &G,
) -> Result<Vec<M::Item, A>, NoResources>
where
    M::Item: Send + Sync,
    requires items { AllPass M.is_item a.now }
    ensures values { IfOk result (λ sums. sums.items ≡ scan_of M.join M.unit a.now) }
    ensures as_long { IfOk result (λ sums. vec_len sums ≡ length a.now) }
{
    scan_readings::<R, A, M, M::Item, Itself, G>(rt, alloc, config, a, gate)
}

/// The exclusive scan of what the elements are read as: element `k` of the result joins the items of the elements before
/// place `k`, from left to right, and is the unit at place 0. The workers pass a gate at each point of their way through a tile.
///
/// The elements must be read as items of the monoid. The result is as long as they are. Source: Blelloch's prescan.
pub fn scan_readings<R, A, M, X, E, G>(
    rt: &R,
    alloc: A,
    config: Config,
    a: &[X],
    gate: &G,
) -> Result<Vec<M::Item, A>, NoResources>
where
    R: Threads + Sync,
    A: Memory,
    M: Packed + Send + Sync,
    M::Item: Send + Sync,
    X: Copy + Send + Sync,
    E: Reading<X, M::Item> + Send + Sync,
    G: Gate,
    requires items { AllPass (λ x. M.is_item (E.item x)) a.now }
    ensures values { IfOk result (λ sums. sums.items ≡ scan_of M.join M.unit (map E.item a.now)) }
    ensures as_long { IfOk result (λ sums. vec_len sums ≡ length a.now) }
{
    know_laws::<M>();
    let Some(pace) = scan_pace(config, a.len()) else {
        return scan_vec::<M, X, E, A>(alloc, M::unit(), a);
    };
    let vector = Tiled::<M, X, E, A>::new(a, None, pace.tile());
    let before = race_for_befores(rt, alloc, pace, &vector, gate)?;
    let sums = vector.scan_after(rt, alloc, pace, &before)?;
    Ok(sums)
}

/// The exclusive scan of each segment: element `k` of the result joins the elements of its segment before place `k`, and
/// is the unit where a segment starts.
///
/// The elements must be items of the monoid. The result is as long as they are. LengthMismatch, without a place, where
/// the segments' total is not the number of elements. Source: Blelloch's segmented scans.
///
/// Workers who race pass `gate` at each point of their way through a tile.
pub fn seg_scan<R: Threads + Sync, A: Memory, M: Packed + Send + Sync, G: Gate>(
    rt: &R,
    alloc: A,
    config: Config,
    a: &[M::Item],
    d: &SegDes<A>,
    gate: &G,
) -> Result<Vec<M::Item, A>, Refused>
where
    M::Item: Send + Sync,
    requires items { AllPass M.is_item a.now }
    ensures values { Gives (λ sums. sums.items) result (seg_scan_of M.join M.unit a.now d.now) }
    ensures as_long { IfOk result (λ sums. vec_len sums ≡ length a.now) }
{
    let Some(pace) = scan_pace(config, a.len()) else {
        return seg_scan_vec::<M, A, A>(alloc, a, d);
    };
    know_laws::<M>();
    check_total(a, d)?;
    let vector = Tiled::<M, M::Item, Itself, A>::new(a, Some(d), pace.tile());
    let before = race_for_befores(rt, alloc, pace, &vector, gate)?;
    let sums = vector.scan_after(rt, alloc, pace, &before)?;
    Ok(sums)
}
