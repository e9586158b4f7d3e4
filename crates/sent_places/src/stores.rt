//! The fast first walk of a permute, which stores each place at its index and reads nothing there. A store alone is faster than a
//! load, a comparison and a store. How many places have a sender then shows whether an index was repeated.

ghost use Rattle.std.specs.Prelude.{◌≡◌, ◌+◌, ◌≤◌, length, replicate, IfSome};
ghost use Rattle.cvl_base.specs.Limits.{most_places};
ghost use Rattle.sent_places.specs.Senders.{IsStored, count_sent, nobody};

use crate::destinations::Destinations;
use crate::sends::NOBODY;
use cvl_base::limits::MOST_PLACES;

/// Stores each place of a segment that takes part at its index, and returns their number; none if an index is no place of the
/// result, or lies beyond the longest vector, and then the senders mean nothing.
// Without its sign an index below 0 is beyond the longest vector, so that one comparison is enough. A place that does not take
// part stores the sender before it once more. So the machine code has no branch on a flag, which a processor guesses wrongly
// every other time if flags are in no order. Inlined into a large function the loop keeps its pointers on the stack.
#[inline(never)]
pub(crate) fn store_each<T: Destinations>(
    senders: &mut [u32],
    first: usize,
    destinations: &T,
) -> Option<usize>
    requires fresh { senders.old ≡ replicate (length senders.old) nobody }
    requires in_limit { first + length (T.destinations destinations.now) ≤ most_places }
    ensures stored { IfSome result (λ sent.
        IsStored first (T.destinations destinations.now) sent (length senders.old) senders.new) }
    ensures in_length { IfSome result (λ sent. sent ≤ length (T.destinations destinations.now)) }
{
    let places = senders.len().min(MOST_PLACES);
    let mut destination = 0;
    let mut sender = NOBODY;
    let mut sent = 0;
    for k in 0..destinations.count() {
        let (index, takes_part) = destinations.at(k);
        let named = index.cast_unsigned();
        let place = (first + k) as u32;
        if takes_part {
            destination = named;
            sender = place;
            sent += 1;
        }
        if destination as usize >= places {
            return None;
        }
        senders[destination as usize] = sender;
    }
    Some(sent)
}

/// How many places have a sender.
// In 32 bits twice as many are counted at once.
#[inline(never)]
pub(crate) fn count_senders(senders: &[u32]) -> u32
    requires few { count_sent senders.now ≤ most_places }
    ensures value { result ≡ count_sent senders.now }
{
    let mut count = 0;
    for sender in senders {
        if *sender != NOBODY {
            count += 1;
        }
    }
    count
}
