//! The back permute of each segment.

ghost use Rattle.std.specs.Prelude.{◌≡◌, ◌≤◌, IfOk, length, sum, Ok, vec_len};
ghost use Rattle.cvl_base.specs.Gives.{Gives, unless};
ghost use Rattle.cvl_base.specs.Limits.{most_elements};
ghost use Rattle.cvl_base.specs.SegmentedCalls.{seg_back_of};
ghost use Rattle.segmented_permutes.specs.Backs.{outside_from};

use crate::back_segments::SegmentsTaken;
use crate::flat_indices::flat_indices;
use crew::Gate;
use cvl_base::{Config, Memory, Refused, check_agree};
use permute_races::{check_indices_raced, permute_pace};
use permute_walks::{take_in_runs, take_nothing};
use segdes::{SegDes, check_total};
use segment_sends::AllInSegments;
use sharing::{Pace, threads_writing};
use std::thread::Threads;

/// `IndexOutOfRange` at the first place whose index is no place of its segment of the source. Workers race for it, at flat
/// indices.
fn check_indices_raced_by_segments<R: Threads + Sync, A: Memory, G: Gate>(
    rt: &R,
    alloc: A,
    pace: Pace,
    index: &[i32],
    source_d: &SegDes<A>,
    index_d: &SegDes<A>,
    gate: &G,
) -> Result<(), Refused>
    requires total { sum index_d.now ≡ length index.now }
    requires count { length source_d.now ≡ length index_d.now }
    requires in_limit { length index.now ≤ most_elements }
    ensures { Gives (λ u. u) result (unless (outside_from 0 source_d.now index_d.now index.now) (Ok tt)) }
{
    let places = source_d.total();
    let segments = AllInSegments {
        index,
        d: index_d,
        result_d: source_d,
    };
    let flat = flat_indices(alloc, &segments, index)?;
    check_indices_raced(rt, alloc, pace, &flat, places, gate)
}

/// The back permute of each segment: `bck_pez` and `bck_peb`.
///
/// The source is as long as the segments of `source_d` together, the index as long as those of `index_d`, and both descriptors
/// have the same number of segments, else `LengthMismatch`, without a place. The result is as long as the index. An index counts
/// from the start of its segment of the source; one that is no place of that is `IndexOutOfRange` at its place in the whole
/// index; an index may repeat. Source: CVL's segmented back permute.
///
/// Workers who race for the first bad index pass `gate` at `Claimed` and `Finished` of each tile.
pub fn seg_back<T: Copy + Send + Sync, R: Threads + Sync, A: Memory, G: Gate>(
    rt: &R,
    alloc: A,
    config: Config,
    source: &[T],
    index: &[i32],
    source_d: &SegDes<A>,
    index_d: &SegDes<A>,
    gate: &G,
) -> Result<Vec<T, A>, Refused>
    requires in_limit { length index.now ≤ most_elements }
    ensures values { Gives (λ v. v.items) result
        (seg_back_of source.now index.now source_d.now index_d.now) }
    ensures as_long { IfOk result (λ v. vec_len v ≡ length index.now) }
{
    check_total(source, source_d)?;
    check_total(index, index_d)?;
    check_agree(source_d.count(), index_d.count())?;
    if let Some(pace) = permute_pace(config, index.len(), source.len()) {
        check_indices_raced_by_segments(rt, alloc, pace, index, source_d, index_d, gate)?;
    }
    let Some(other) = source.first() else {
        return take_nothing(alloc, index.len());
    };
    let segments = SegmentsTaken {
        source,
        index,
        source_d,
        index_d,
        other: *other,
    };
    let threads = threads_writing(config, index.len());
    take_in_runs(rt, alloc, threads, &segments, index.len())
}
