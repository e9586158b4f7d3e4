//! The first senders of each segment. An index counts from the start of its segment of the result, and a sender from the start of
//! its own. Both walks take the segments in turn, the second only if the first found no fault.

ghost use Rattle.std.specs.Prelude.{◌≡◌, ◌≤◌, length, sum};
ghost use Rattle.cvl_base.specs.Limits.{most_places};
ghost use Rattle.cvl_base.specs.Rooms.{Overwrites, in_room};
ghost use Rattle.first_senders.specs.FirstSenders.{seg_first_senders_of, seg_first_senders_to, seg_select_first_senders_of};
ghost use Rattle.first_senders.specs.Walks.{fault_by, senders_by};
ghost use Rattle.permute_walks.specs.Senders.{fault_told};

use crate::walks::{check_indices, write_first};
use cvl_base::{Fault, check_agree};
use permute_walks::{AllDestinations, Destinations, FlaggedDestinations};
use segdes::SegLengths;

/// `IndexOutOfRange` at the first place that takes part and whose index is no place of its segment of the result.
fn check_segments<D: Destinations>(
    destinations: &D,
    d: &SegLengths,
    result_d: &SegLengths,
) -> Result<(), Fault>
    requires total { sum d.now ≡ length (D.destinations destinations.now) }
    requires count { length d.now ≡ length result_d.now }
    requires in_limit { length (D.destinations destinations.now) ≤ most_places }
    ensures { fault_told result ≡ fault_by 0 d.now result_d.now (D.destinations destinations.now) }
{
    let mut first = 0;
    for s in 0..d.count() {
        let count = d.length(s);
        check_indices(destinations, first, count, result_d.length(s))?;
        first += count;
    }
    Ok(())
}

/// Writes the first senders of each segment, in order.
fn write_segments<D: Destinations + Copy>(
    destinations: &D,
    d: &SegLengths,
    result_d: &SegLengths,
    out: &mut [i32],
)
    requires total { sum d.now ≡ length (D.destinations destinations.now) }
    requires count { length d.now ≡ length result_d.now }
    requires in_limit { length (D.destinations destinations.now) ≤ most_places }
    requires as_long { length out.old ≡ sum result_d.now }
    ensures { out.new ≡ senders_by d.now result_d.now (D.destinations destinations.now) }
{
    let (mut first, mut start) = (0, 0);
    for s in 0..d.count() {
        let count = d.length(s);
        let end = start + result_d.length(s);
        write_first(destinations, first, count, 0, &mut out[start..end]);
        first += count;
        start = end;
    }
}

/// The first senders of each segment into a room, by both walks. The faults of lengths that do not agree come first, and the
/// room's last.
fn both_walks<D: Destinations + Copy>(
    destinations: &D,
    d: &SegLengths,
    result_d: &SegLengths,
    out: &mut [i32],
) -> Result<(), Fault>
    requires in_limit { length (D.destinations destinations.now) ≤ most_places }
    ensures { Overwrites (in_room (length out.old) (seg_first_senders_to (D.destinations destinations.now) d.now result_d.now))
        result out.old out.new }
{
    check_agree(d.total(), destinations.count())?;
    check_agree(d.count(), result_d.count())?;
    check_segments(destinations, d, result_d)?;
    check_agree(result_d.total(), out.len())?;
    write_segments(destinations, d, result_d, out);
    Ok(())
}

/// The first senders of each segment: for each place of a segment of the result the least place of the same segment of the index
/// that names it, counted from the start of the segment, or -1.
///
/// `LengthMismatch`, without a place, if the segments of the index do not add up to it, or the result does not have as many
/// segments; `IndexOutOfRange` at the first index that is no place of its segment of the result; `LengthMismatch` if the room is
/// not as long as all segments of the result. After a fault the room is as before.
pub fn seg_first_senders_over(
    index: &[i32],
    d: &SegLengths,
    result_d: &SegLengths,
    out: &mut [i32],
) -> Result<(), Fault>
    requires in_limit { length index.now ≤ most_places }
    ensures { Overwrites (in_room (length out.old) (seg_first_senders_of index.now d.now result_d.now)) result out.old out.new }
{
    both_walks(&AllDestinations { index }, d, result_d, out)
}

/// The same for the places whose flag is true. An index whose flag is false is not checked. `LengthMismatch`, without a place,
/// also if there are not as many flags as indices.
pub fn seg_select_first_senders_over(
    index: &[i32],
    flags: &[bool],
    d: &SegLengths,
    result_d: &SegLengths,
    out: &mut [i32],
) -> Result<(), Fault>
    requires in_limit { length index.now ≤ most_places }
    ensures { Overwrites (in_room (length out.old) (seg_select_first_senders_of index.now flags.now d.now result_d.now))
        result out.old out.new }
{
    check_agree(index.len(), flags.len())?;
    both_walks(&FlaggedDestinations { index, flags }, d, result_d, out)
}
