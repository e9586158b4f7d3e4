//! The segments of two vectors, each of the first followed by that of the second.

ghost use Rattle.std.specs.Prelude.{◌≡◌, ◌+◌, length, sum};
ghost use Rattle.cvl_base.specs.Rooms.{Overwrites, in_room};
ghost use Rattle.segment_slices.specs.Pairs.{append_segments_of, pairs_of};

use crate::copies::copy_slice;
use cvl_base::{Fault, check_agree};
use segdes::SegLengths;

/// Copies the segments of both vectors, by turns, into a room that is as long as both together.
#[inline(never)]
fn write_pairs<T: Copy>(a: &[T], d: &SegLengths, b: &[T], other: &SegLengths, out: &mut [T])
    requires total { sum d.now ≡ length a.now }
    requires other_total { sum other.now ≡ length b.now }
    requires count { length d.now ≡ length other.now }
    requires as_long { length out.old ≡ sum d.now + sum other.now }
    ensures { out.new ≡ pairs_of a.now d.now b.now other.now }
{
    let (mut first, mut second, mut end) = (0, 0, 0);
    for s in 0..d.count() {
        let count = d.length(s);
        let more = other.length(s);
        copy_slice(a, first, count, out, end);
        copy_slice(b, second, more, out, end + count);
        first += count;
        second += more;
        end += count + more;
    }
}

/// The segments of one vector, each followed by the segment of another with the same number, in order. Segment s of the result
/// has as many elements as both segments together.
///
/// `LengthMismatch`, without a place, if segments do not add up to their vector, if the vectors differ in the number of segments,
/// or if the room is not as long as both vectors together. After a fault the room is as before.
pub fn append_segments_over<T: Copy>(
    a: &[T],
    d: &SegLengths,
    b: &[T],
    other: &SegLengths,
    out: &mut [T],
) -> Result<(), Fault>
    ensures { Overwrites (in_room (length out.old) (append_segments_of a.now d.now b.now other.now)) result out.old out.new }
{
    d.check_total(a)?;
    other.check_total(b)?;
    check_agree(d.count(), other.count())?;
    check_agree(a.len() + b.len(), out.len())?;
    write_pairs(a, d, b, other, out);
    Ok(())
}
