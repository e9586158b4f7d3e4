//! The first walk of a permute by segments, which finds the sender of each place: on the calling thread, or by workers who race.

ghost use Rattle.std.specs.Prelude.{◌≡◌, ◌≤◌, IfOk, Ok, length, sum, vec_len};
ghost use Rattle.cvl_base.specs.Gives.{Gives, unless};
ghost use Rattle.cvl_base.specs.Limits.{most_elements};
ghost use Rattle.cvl_base.specs.Packs.{count_of};
ghost use Rattle.permutes.specs.Ways.{RacesWithin};
ghost use Rattle.segment_sends.specs.SegmentDestinations.{fault_from, flagged_in_segments, all_in_segments, senders_from};

use crate::flat_indices::flat_indices;
use crew::Gate;
use cvl_base::{Memory, Refused};
use permute_races::senders_raced;
use permute_walks::{AllDestinations, FlaggedDestinations};
use permutes::Way;
use segdes::SegDes;
use segment_sends::{AllInSegments, FlaggedInSegments, segment_senders_alone};
use std::thread::Threads;

/// The sender of each place of a result, which has segments of its own lengths, if each place of the index takes part. Workers
/// race for them at flat indices, or one thread walks the segments.
pub(crate) fn segment_senders<R: Threads + Sync, A: Memory, G: Gate>(
    rt: &R,
    alloc: A,
    way: Way,
    index: &[i32],
    d: &SegDes<A>,
    result_d: &SegDes<A>,
    places: usize,
    gate: &G,
) -> Result<Vec<u32, A>, Refused>
    requires total { sum d.now ≡ length index.now }
    requires count { length d.now ≡ length result_d.now }
    requires whole { sum result_d.now ≡ places }
    requires in_limit { length index.now ≤ most_elements }
    requires few_places { RacesWithin places way }
    ensures senders { Gives (λ v. v.items) result (unless (fault_from 0 (all_in_segments d.now result_d.now index.now))
        (Ok (senders_from 0 (all_in_segments d.now result_d.now index.now)))) }
    ensures as_long { IfOk result (λ v. vec_len v ≡ places) }
{
    let segments = AllInSegments { index, d, result_d };
    match way.pace() {
        Some(pace) => {
            let flat = flat_indices(alloc, &segments, index)?;
            let destinations = AllDestinations { index: &flat };
            senders_raced(rt, alloc, pace, places, &destinations, gate)
        }
        None => segment_senders_alone(alloc, places, &segments),
    }
}

/// The same if the places whose flag is true take part. Each segment of the result has one place for each of its true flags.
pub(crate) fn flagged_segment_senders<R: Threads + Sync, A: Memory, G: Gate>(
    rt: &R,
    alloc: A,
    way: Way,
    index: &[i32],
    flags: &[bool],
    d: &SegDes<A>,
    places: usize,
    gate: &G,
) -> Result<Vec<u32, A>, Refused>
    requires total { sum d.now ≡ length index.now }
    requires as_long { length index.now ≡ length flags.now }
    requires whole { count_of flags.now ≡ places }
    requires in_limit { length index.now ≤ most_elements }
    requires few_places { RacesWithin places way }
    ensures senders { Gives (λ v. v.items) result (unless (fault_from 0 (flagged_in_segments d.now index.now flags.now))
        (Ok (senders_from 0 (flagged_in_segments d.now index.now flags.now)))) }
    ensures as_long { IfOk result (λ v. vec_len v ≡ places) }
{
    let segments = FlaggedInSegments { index, flags, d };
    match way.pace() {
        Some(pace) => {
            let flat = flat_indices(alloc, &segments, index)?;
            let destinations = FlaggedDestinations {
                index: &flat,
                flags,
            };
            senders_raced(rt, alloc, pace, places, &destinations, gate)
        }
        None => segment_senders_alone(alloc, places, &segments),
    }
}
