//! The first walk of a permute by segments, segment by segment, on the calling thread.

ghost use Rattle.std.specs.Prelude.{◌≡◌, ◌≤◌, IfOk, Ok, OnOk, length, replicate, vec_len};
ghost use Rattle.cvl_base.specs.Gives.{Gives, unless};
ghost use Rattle.cvl_base.specs.Limits.{most_places};
ghost use Rattle.segment_sends.specs.SegmentDestinations.{destinations_in, fault_from, places_in, senders_from};
ghost use Rattle.permute_walks.specs.Senders.{nobody, fault_told};

use crate::segment_destinations::{SegmentDestinations, segment_count};
use cvl_base::{Fault, Memory, Refused};
use permute_walks::{Destinations, NOBODY, send_places};

/// Sends the places of each segment that take part. The senders are those of the whole result, at first nobody. The fault is that
/// of the first bad place, a place of the whole index.
fn send_segments<D: SegmentDestinations>(senders: &mut [u32], segments: &D) -> Result<(), Fault>
    requires cut { D.AreCut segments.now }
    requires fresh { senders.old ≡ replicate (length senders.old) nobody }
    requires as_long { places_in (D.segments segments.now) ≡ length senders.old }
    requires in_limit { destinations_in (D.segments segments.now) ≤ most_places }
    ensures fault { fault_told result ≡ fault_from 0 (D.segments segments.now) }
    ensures sent { OnOk result (senders.new ≡ senders_from 0 (D.segments segments.now)) }
{
    let mut first = 0;
    let mut start = 0;
    for s in 0..segment_count(segments) {
        let (places, destinations) = segments.of_segment(s);
        let end = start + places;
        send_places(&mut senders[start..end], first, &destinations)?;
        first += destinations.count();
        start = end;
    }
    Ok(())
}

/// The sender of each of the `places` places of a result by segments, or the fault of the first bad place, a place of the whole
/// index. `NoResources` if there is no memory for the senders.
pub fn segment_senders_alone<A: Memory, D: SegmentDestinations>(
    alloc: A,
    places: usize,
    segments: &D,
) -> Result<Vec<u32, A>, Refused>
    requires cut { D.AreCut segments.now }
    requires few { destinations_in (D.segments segments.now) ≤ most_places }
    requires whole { places_in (D.segments segments.now) ≡ places }
    ensures senders { Gives (λ v. v.items) result
        (unless (fault_from 0 (D.segments segments.now)) (Ok (senders_from 0 (D.segments segments.now)))) }
    ensures as_long { IfOk result (λ v. vec_len v ≡ places) }
{
    let mut senders = vec![in alloc; NOBODY; places]?;
    send_segments(&mut senders, segments)?;
    Ok(senders)
}
