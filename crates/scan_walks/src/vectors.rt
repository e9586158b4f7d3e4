//! Scans and reduces of each segment, on the calling thread: without a runtime and without a configuration.

ghost use Rattle.std.specs.Prelude.{◌≡◌, IfOk, length, map, vec_len};
ghost use Rattle.std.specs.List.{AllPass};
ghost use Rattle.cvl_base.specs.Gives.{Gives};
ghost use Rattle.cvl_base.specs.SegmentedCalls.{seg_reduce_of, seg_scan_of};

use cvl_base::monoid::know_laws;
use cvl_base::{Monoid, Refused};
use fresh::Room;
use range_walks::{Itself, Reading, scans_into, seg_reduces_into};
use segdes::{SegDes, check_total};
use std::alloc::Allocator;

/// The exclusive scan of each segment, on the calling thread: element `k` of the result joins the elements of its segment before
/// place `k`, and is the unit where a segment starts.
///
/// The elements must be items of the monoid. The result is as long as they are. `LengthMismatch`, without a place, if the
/// segments' total is not the number of elements. Source: Blelloch's segmented scans.
pub fn seg_scan_vec<M: Monoid, A: Allocator, B: Allocator>(
    alloc: B,
    a: &[M::Item],
    d: &SegDes<A>,
) -> Result<Vec<M::Item, B>, Refused>
    requires items { AllPass M.is_item a.now }
    ensures values { Gives (λ sums. sums.items) result (seg_scan_of M.join M.unit a.now d.now) }
    ensures as_long { IfOk result (λ sums. vec_len sums ≡ length a.now) }
{
    know_laws::<M>();
    check_total(a, d)?;
    let segments = d.as_lengths();
    let (room, run) = Room::new(alloc, a.len())?;
    let run = scans_into::<M, M::Item, Itself>(run, segments.lengths(), a);
    Ok(room.into_vec(run))
}

/// The items read from each segment's elements, joined from left to right, and the unit if it is empty, on the calling thread.
///
/// The elements must be read as items of the monoid. The result has one element for each segment. `LengthMismatch`, without a
/// place, if the segments' total is not the number of elements. Source: CVL's segmented reduces.
pub fn seg_reduce_vec<M: Monoid, X: Copy, E: Reading<X, M::Item>, A: Allocator>(
    alloc: A,
    a: &[X],
    d: &SegDes<A>,
) -> Result<Vec<M::Item, A>, Refused>
    requires items { AllPass (λ x. M.is_item (E.item x)) a.now }
    ensures values { Gives (λ sums. sums.items) result
        (seg_reduce_of M.join M.unit (map E.item a.now) d.now) }
    ensures one_each { IfOk result (λ sums. vec_len sums ≡ length d.now) }
{
    know_laws::<M>();
    check_total(a, d)?;
    let count = d.count();
    let (room, run) = Room::new(alloc, count)?;
    Ok(room.into_vec(seg_reduces_into::<M, X, E, A>(run, a, d, 0, count, 0, M::unit())))
}
