//! First senders by ranges of their result. Each range has its own caller, who reads all indices. If the counts of all ranges add
//! up to the number of places that take part, no index is out of range, and the ranges in order are the first senders. Otherwise
//! an index is out of range, which the plain call reports.

ghost use Rattle.std.specs.Prelude.{◌≡◌, ◌+◌, ◌≤◌, count_by, length};
ghost use Rattle.cvl_base.specs.Limits.{most_places};
ghost use Rattle.first_senders.specs.FirstSenders.{first_senders};
ghost use Rattle.permute_walks.specs.Senders.{is_between};
ghost use Rattle.part_calls.specs.CountedRanges.{WritesCounted};
ghost use Rattle.part_calls.specs.SenderRanges.{select_senders_range_of, senders_range_of};

use crate::limits::{check_end, check_few};
use cvl_base::{Fault, check_agree};
use first_senders::write_first;
use permute_walks::{AllDestinations, Destinations, FlaggedDestinations};

/// Writes the first senders of one range, and returns how many places that take part name one of it.
fn write_counted<D: Destinations + Copy>(destinations: &D, lowest: usize, out: &mut [i32]) -> usize
    requires few { length (D.destinations destinations.now) ≤ most_places }
    requires within { lowest + length out.old ≤ most_places }
    ensures written { out.new ≡ first_senders (D.destinations destinations.now) lowest (length out.old) }
    ensures counted { result ≡ count_by (is_between lowest (lowest + length out.old)) (D.destinations destinations.now) }
{
    write_first(destinations, 0, destinations.count(), lowest, out)
}

/// One range of the first senders of an index, from place `lowest` of the result on: writes for each place of it the least place
/// whose index names it, or -1; returns how many indices name a place of it. The room has the range's length.
///
/// `TooLong`, without a place, if there are more than 2,147,483,647 indices or the range ends beyond that many places.
pub fn senders_range(index: &[i32], lowest: usize, out: &mut [i32]) -> Result<usize, Fault>
    ensures { WritesCounted (senders_range_of index.now lowest (length out.old)) result out.old out.new }
{
    check_few(index.len())?;
    check_end(lowest, out.len())?;
    Ok(write_counted(&AllDestinations { index }, lowest, out))
}

/// The same for the places whose flag is true. `LengthMismatch`, without a place, if index and flags differ in length.
pub fn select_senders_range(
    index: &[i32],
    flags: &[bool],
    lowest: usize,
    out: &mut [i32],
) -> Result<usize, Fault>
    ensures { WritesCounted (select_senders_range_of index.now flags.now lowest (length out.old)) result out.old out.new }
{
    check_few(index.len())?;
    check_end(lowest, out.len())?;
    check_agree(index.len(), flags.len())?;
    Ok(write_counted(&FlaggedDestinations { index, flags }, lowest, out))
}
