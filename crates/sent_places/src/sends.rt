//! The first walk of a permute: it finds the sender of each place of the result. The places of a long segment are first stored at
//! their indices, and sent in turn only if that shows a bad index.

ghost use Rattle.std.specs.Prelude.{◌≡◌, ◌+◌, ◌≤◌, unsigned_abs, length, OnOk, option_map, replicate, slice_set};
ghost use Rattle.cvl_base.specs.Faults.{fault_at};
ghost use Rattle.cvl_base.specs.Limits.{most_places};
ghost use Rattle.cvl_base.specs.Permutes.{first_fault, wrongs};
ghost use Rattle.sent_places.specs.Senders.{nobody, senders_of, fault_told, wrong_with};

use crate::destinations::Destinations;
use crate::stores::{count_senders, store_each};
use cvl_base::{Fault, FaultNo, place_among};

/// The sender of a place that gets no element.
pub const NOBODY: u32 = u32::MAX;

/// From this many places on a segment is stored before it is checked. Fewer are sent in turn faster than they are stored and
/// counted.
const LONG: usize = 32;

/// Sends the element of a place to its index: `IndexOutOfRange` at the place if the index is no place of the result, else
/// `IndexRepeated` at it if the index has a sender already.
#[inline]
fn send_one(senders: &mut [u32], index: &i32, place: u32) -> Result<(), Fault>
    ensures fault { fault_told result
        ≡ option_map (λ number. fault_at number place) (wrong_with senders.old index.now) }
    ensures sent { OnOk result
        (senders.new ≡ slice_set senders.old (unsigned_abs index.now) place) }
{
    let Some(destination) = place_among(senders.len(), index) else {
        return Err(Fault::at(FaultNo::IndexOutOfRange, place));
    };
    if senders[destination] != NOBODY {
        return Err(Fault::at(FaultNo::IndexRepeated, place));
    }
    senders[destination] = place;
    Ok(())
}

/// Sends each place of a segment in turn, and stops at the first bad one. The clauses are those of `send_places`.
#[inline]
fn send_each<T: Destinations>(
    senders: &mut [u32],
    first: usize,
    destinations: &T,
) -> Result<(), Fault>
    requires fresh { senders.old ≡ replicate (length senders.old) nobody }
    requires in_limit { first + length (T.destinations destinations.now) ≤ most_places }
    ensures fault { fault_told result
        ≡ first_fault first (wrongs (length senders.old) (T.destinations destinations.now)) }
    ensures sent { OnOk result
        (senders.new ≡ senders_of first (T.destinations destinations.now) (length senders.old)) }
{
    for k in 0..destinations.count() {
        let (index, takes_part) = destinations.at(k);
        if takes_part {
            send_one(senders, index, (first + k) as u32)?;
        }
    }
    Ok(())
}

/// Sends the places of a segment that take part, the first of which stands at place `first`. The senders are those of the
/// segment's part of the result, at first nobody. The fault is that of the first bad place; an index of a place that does not
/// take part is never bad.
// Inlined for a short segment, whose places are then sent in turn without a call.
#[inline]
pub fn send_places<T: Destinations>(
    senders: &mut [u32],
    first: usize,
    destinations: &T,
) -> Result<(), Fault>
    requires fresh { senders.old ≡ replicate (length senders.old) nobody }
    requires in_limit { first + length (T.destinations destinations.now) ≤ most_places }
    ensures fault { fault_told result
        ≡ first_fault first (wrongs (length senders.old) (T.destinations destinations.now)) }
    ensures sent { OnOk result
        (senders.new ≡ senders_of first (T.destinations destinations.now) (length senders.old)) }
{
    if destinations.count() >= LONG {
        // No two were sent to one place if as many places have a sender.
        if let Some(sent) = store_each(senders, first, destinations) {
            if count_senders(senders) as usize == sent {
                return Ok(());
            }
        }
        senders.fill(NOBODY);
    }
    send_each(senders, first, destinations)
}
