//! A permute by segments, in one walk that several threads share.

ghost use Rattle.std.specs.Prelude.{◌≡◌, ◌≤◌, IfOk, length, vec_len};
ghost use Rattle.cvl_base.specs.Limits.{most_elements};
ghost use Rattle.permute_walks.specs.Before.{values_of};
ghost use Rattle.permutes.specs.Ways.{RacesWithin};
ghost use Rattle.segment_sends.specs.SegmentDestinations.{destinations_in, places_in};
ghost use Rattle.segmented_permutes.specs.SegmentPermutes.{AreMeant, IfMadeInOne};

use cvl_base::{Config, Memory, NoResources};
use permute_walks::Before;
use permutes::{Way, segment_way};
use segment_sends::{SegmentDestinations, permuted_by_segments};
use std::thread::Threads;

/// The way of a permute by segments, with its elements if it was made in one walk. No elements if this is not its way, or if a
/// place is bad.
pub(crate) fn permuted_in_one<T, R, A, D>(
    rt: &R,
    alloc: A,
    config: Config,
    source: &[T],
    segments: &D,
    before: Before<T>,
) -> Result<(Option<Vec<T, A>>, Way), NoResources>
where
    T: Copy + Send + Sync,
    R: Threads + Sync,
    A: Memory,
    D: SegmentDestinations + Sync,
    requires cut { D.AreCut segments.now }
    requires few { destinations_in (D.segments segments.now) ≤ most_elements }
    requires whole { places_in (D.segments segments.now) ≡ length (values_of before) }
    ensures values { IfMadeInOne result (λ v. AreMeant source.now (D.segments segments.now) before.entry v.items) }
    ensures as_long { IfMadeInOne result (λ v. vec_len v ≡ length (values_of before.entry)) }
    ensures raced { IfOk result (λ made. RacesWithin (length (values_of before.entry)) made.1) }
{
    let values = before.values();
    let widest = segments.widest();
    let way = segment_way(config, source.len(), values.len(), widest);
    match way {
        Way::OneWalk(threads, _) => {
            let in_one = permuted_by_segments(
                rt, alloc, threads, source, values, segments, widest,
            )?;
            Ok((in_one, way))
        }
        Way::Race(_) | Way::Alone => Ok((None, way)),
    }
}
