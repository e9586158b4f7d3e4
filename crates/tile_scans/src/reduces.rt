//! Reduces by any monoid.

ghost use Rattle.std.specs.Prelude.{◌≡◌, IfOk, length, map, vec_len};
ghost use Rattle.std.specs.List.{AllPass};
ghost use Rattle.cvl_base.specs.Folds.{fold_of};
ghost use Rattle.cvl_base.specs.Gives.{Gives};
ghost use Rattle.cvl_base.specs.SegmentedCalls.{seg_reduce_of};

use crate::known_befores::KnownBefores;
use crate::pace::reduce_pace;
use crate::race::race_for_befores;
use crate::tiled::Tiled;
use crew::Gate;
use cvl_base::monoid::know_laws;
use cvl_base::{Config, Memory, NoResources, Packed, Refused};
use scan_walks::{Itself, Reading, seg_reduce_vec, sum_from};
use segdes::{SegDes, check_total};
use std::mem::size_of_val;
use std::thread::Threads;

/// The elements joined from left to right, and the unit where there are none.
///
/// The elements must be items of the monoid. Source: CVL's reduces.
///
/// Workers who race pass `gate` at each point of their way through a tile.
pub fn reduce<R: Threads + Sync, A: Memory, M: Packed + Send + Sync, G: Gate>(
    rt: &R,
    alloc: A,
    config: Config,
    a: &[M::Item],
    gate: &G,
) -> Result<M::Item, NoResources>
where
    M::Item: Send + Sync,
    requires items { AllPass M.is_item a.now }
    ensures { IfOk result (λ sum. sum ≡ fold_of M.join M.unit a.now) }
{
    know_laws::<M>();
    let Some(pace) = reduce_pace(config, a.len(), size_of_val(a)) else {
        return Ok(sum_from::<M, M::Item, Itself>(M::unit(), a));
    };
    let vector = Tiled::<M, M::Item, Itself, A>::new(a, None, pace.tile());
    let before = race_for_befores(rt, alloc, pace, &vector, gate)?;
    let known = KnownBefores {
        vector: &vector,
        before: &before,
    };
    let last = vector.plan.count() - 1;
    Ok(known.before_place(last, a.len()))
}

/// For each segment its elements joined from left to right, and the unit where it is empty.
///
/// The elements must be items of the monoid. The result has one element for each segment. LengthMismatch, without a
/// place, where the segments' total is not the number of elements. Source: CVL's segmented reduces.
///
/// Workers who race pass `gate` at each point of their way through a tile.
pub fn seg_reduce<R: Threads + Sync, A: Memory, M: Packed + Send + Sync, G: Gate>(
    rt: &R,
    alloc: A,
    config: Config,
    a: &[M::Item],
    d: &SegDes<A>,
    gate: &G,
) -> Result<Vec<M::Item, A>, Refused>
where
    M::Item: Send + Sync,
    requires items { AllPass M.is_item a.now }
    ensures values { Gives (λ sums. sums.items) result (seg_reduce_of M.join M.unit a.now d.now) }
    ensures one_each { IfOk result (λ sums. vec_len sums ≡ length d.now) }
{
    seg_reduce_readings::<R, A, M, M::Item, Itself, G>(rt, alloc, config, a, d, gate)
}

/// For each segment what its elements are read as, joined from left to right, and the unit where it is empty. The workers pass
/// a gate at each point of their way through a tile.
///
/// The elements must be read as items of the monoid. The result has one element for each segment. LengthMismatch, without
/// a place, where the segments' total is not the number of elements. Source: CVL's segmented reduces.
pub fn seg_reduce_readings<R, A, M, X, E, G>(
    rt: &R,
    alloc: A,
    config: Config,
    a: &[X],
    d: &SegDes<A>,
    gate: &G,
) -> Result<Vec<M::Item, A>, Refused>
where
    R: Threads + Sync,
    A: Memory,
    M: Packed + Send + Sync,
    M::Item: Send + Sync,
    X: Copy + Send + Sync,
    E: Reading<X, M::Item> + Send + Sync,
    G: Gate,
    requires items { AllPass (λ x. M.is_item (E.item x)) a.now }
    ensures values { Gives (λ sums. sums.items) result
        (seg_reduce_of M.join M.unit (map E.item a.now) d.now) }
    ensures one_each { IfOk result (λ sums. vec_len sums ≡ length d.now) }
{
    let Some(pace) = reduce_pace(config, a.len(), size_of_val(a)) else {
        return seg_reduce_vec::<M, X, E, A>(alloc, a, d);
    };
    check_total(a, d)?;
    let vector = Tiled::<M, X, E, A>::new(a, Some(d), pace.tile());
    let before = race_for_befores(rt, alloc, pace, &vector, gate)?;
    let reduces = vector.reduces_after(rt, alloc, pace, d, &before)?;
    Ok(reduces)
}
