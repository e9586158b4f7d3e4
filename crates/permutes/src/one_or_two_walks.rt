//! A flat permute of any kind, in one walk or in two, depending on its lengths.

ghost use Rattle.std.specs.Prelude.{◌≡◌, ◌≤◌, IfOk, List, Result, length, vec_len};
ghost use Rattle.cvl_base.specs.declared.fault.Fault.{Fault};
ghost use Rattle.cvl_base.specs.Gives.{Gives};
ghost use Rattle.cvl_base.specs.Limits.{most_elements};
ghost use Rattle.cvl_base.specs.Permutes.{all_destinations};
ghost use Rattle.permute_walks.specs.Before.{values_of};
ghost use Rattle.permutes.specs.FlatPermutes.{IsFlatPermute};

use crate::first_walk::senders_to;
use crate::second_walk::elements_of_senders;
use crate::ways::{Way, flat_way};
use crew::Gate;
use cvl_base::{Config, Memory, Refused};
use permute_scatters::permuted_at_once;
use permute_walks::{AllDestinations, Before, Destinations, permuted_shared};
use std::thread::Threads;

/// The elements of a flat permute: at each place its sender's element, or what stood there before if it has no sender. The
/// lengths decide the way.
pub(crate) fn permuted<T, R, A, D, G>(
    rt: &R,
    alloc: A,
    config: Config,
    source: &[T],
    destinations: &D,
    before: Before<T>,
    gate: &G,
) -> Result<Vec<T, A>, Refused>
where
    T: Copy + Send + Sync,
    R: Threads + Sync,
    A: Memory,
    D: Destinations + Sync,
    G: Gate,
    requires sourced { length source.now ≡ length (D.destinations destinations.now) }
    requires few { length (D.destinations destinations.now) ≤ most_elements }
    ensures values { (meaning : Result (List T) Fault)
        → IsFlatPermute source.now (D.destinations destinations.now) before.entry meaning → Gives (λ v. v.items) result meaning }
    ensures as_long { IfOk result (λ v. vec_len v ≡ length (values_of before.entry)) }
{
    let places = before.values().len();
    let way = flat_way(config, destinations.count(), places);
    if let Way::OneWalk(threads, _) = way {
        let in_one = permuted_shared(rt, alloc, threads, source, destinations, places, &before)?;
        if let Some(elements) = in_one {
            return Ok(elements);
        }
    }
    let found = senders_to(rt, alloc, way.pace(), places, destinations, gate);
    elements_of_senders(rt, alloc, config, source, found, before)
}

/// The same of a permute whose places all take part. A short one is made in one walk on the calling thread, unless a place is bad
/// or the index jumps.
pub(crate) fn all_permuted<T, R, A, G>(
    rt: &R,
    alloc: A,
    config: Config,
    source: &[T],
    index: &[i32],
    before: Before<T>,
    gate: &G,
) -> Result<Vec<T, A>, Refused>
where
    T: Copy + Send + Sync,
    R: Threads + Sync,
    A: Memory,
    G: Gate,
    requires sourced { length source.now ≡ length index.now }
    requires few { length index.now ≤ most_elements }
    ensures values { (meaning : Result (List T) Fault)
        → IsFlatPermute source.now (all_destinations index.now) before.entry meaning → Gives (λ v. v.items) result meaning }
    ensures as_long { IfOk result (λ v. vec_len v ≡ length (values_of before.entry)) }
{
    let places = before.values().len();
    if let Way::Alone = flat_way(config, index.len(), places) {
        if let Some(elements) = permuted_at_once(alloc, source, index, places, &before)? {
            return Ok(elements);
        }
    }
    let destinations = AllDestinations { index };
    permuted(rt, alloc, config, source, &destinations, before, gate)
}
