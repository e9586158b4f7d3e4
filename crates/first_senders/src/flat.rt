//! The first senders of a whole vector.

ghost use Rattle.std.specs.Prelude.{◌≤◌, length};
ghost use Rattle.cvl_base.specs.Limits.{most_places};
ghost use Rattle.cvl_base.specs.Rooms.{Overwrites};
ghost use Rattle.first_senders.specs.FirstSenders.{first_senders_of, first_senders_to, select_first_senders_of};

use crate::walks::{check_indices, write_first};
use cvl_base::{Fault, check_agree};
use permute_walks::{AllDestinations, Destinations, FlaggedDestinations};

/// The first sender of each place of the room, by both walks.
fn both_walks<D: Destinations + Copy>(destinations: &D, out: &mut [i32]) -> Result<(), Fault>
    requires in_limit { length (D.destinations destinations.now) ≤ most_places }
    ensures { Overwrites (first_senders_to (D.destinations destinations.now) (length out.old)) result out.old out.new }
{
    let count = destinations.count();
    check_indices(destinations, 0, count, out.len())?;
    write_first(destinations, 0, count, 0, out);
    Ok(())
}

/// The first sender of each place of the room: the least place whose index names it, or -1.
///
/// The room has any number of places. `IndexOutOfRange` at the first index that is none of them; the room is then as before.
pub fn first_senders_over(index: &[i32], out: &mut [i32]) -> Result<(), Fault>
    requires in_limit { length index.now ≤ most_places }
    ensures { Overwrites (first_senders_of index.now (length out.old)) result out.old out.new }
{
    both_walks(&AllDestinations { index }, out)
}

/// The same for the places whose flag is true. An index whose flag is false is not checked.
///
/// `LengthMismatch`, without a place, if there are not as many flags as indices.
pub fn select_first_senders_over(
    index: &[i32],
    flags: &[bool],
    out: &mut [i32],
) -> Result<(), Fault>
    requires in_limit { length index.now ≤ most_places }
    ensures { Overwrites (select_first_senders_of index.now flags.now (length out.old)) result out.old out.new }
{
    check_agree(index.len(), flags.len())?;
    both_walks(&FlaggedDestinations { index, flags }, out)
}
