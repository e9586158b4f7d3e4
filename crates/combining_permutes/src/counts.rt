//! How many indices name each place: a combining permute of ones by addition, over a room of zeros.

ghost use Rattle.std.specs.Prelude.{◌≤◌, length, pos};
ghost use Rattle.cvl_base.specs.Limits.{most_places};
ghost use Rattle.cvl_base.specs.Rooms.{Overwrites, in_room};
ghost use Rattle.combining_permutes.specs.CombiningPermutes.{place_counts_of, seg_place_counts_of};

use crate::segments::{check_segments, join_segments};
use crate::walks::combine_each;
use cvl_base::monoids::Add;
use cvl_base::{Fault, check_agree};
use permute_walks::check_places_alone;
use scan_walks::{Reading, know_numbers};
use segdes::SegLengths;

/// The rule by which each index is read as one more.
pub(crate) struct One;

impl Reading<i32, i32> for One {
    ghost item = { λ x. pos 1 };

    fn item(_index: i32) -> i32 {
        1
    }
}

/// Writes how many indices name each place of the room, whatever stood there.
///
/// `IndexOutOfRange` at the first index that is no place of the room, which is then as it was. The room has at most 2,147,483,647
/// places, and there are at most as many indices.
pub fn counts_over(index: &[i32], out: &mut [i32]) -> Result<(), Fault>
    requires in_limit { (length index.now ≤ most_places) × (length out.old ≤ most_places) }
    ensures { Overwrites (place_counts_of index.now (length out.old)) result out.old out.new }
{
    check_places_alone(index, out.len(), 0)?;
    out.fill(0);
    know_numbers(out);
    combine_each::<Add, i32, One>(index, index, out);
    Ok(())
}

/// Writes how many indices of each segment name each place of the same segment of the room; an index counts from the start of
/// that.
///
/// `LengthMismatch`, without a place, where the segments of the index do not add up to it, or there are not as many segments of
/// the room; `IndexOutOfRange` at the first index that is no place of its segment of the room; `LengthMismatch` where the room is
/// not as long as its segments. At a fault the room is as it was.
pub fn seg_counts_over(
    index: &[i32],
    d: &SegLengths,
    room_d: &SegLengths,
    out: &mut [i32],
) -> Result<(), Fault>
    ensures { Overwrites (in_room (length out.old) (seg_place_counts_of index.now d.now room_d.now)) result out.old out.new }
{
    check_agree(d.total(), index.len())?;
    check_agree(d.count(), room_d.count())?;
    check_segments(index, d, room_d)?;
    check_agree(room_d.total(), out.len())?;
    out.fill(0);
    know_numbers(out);
    join_segments::<Add, i32, One>(index, index, d, room_d, out);
    Ok(())
}
