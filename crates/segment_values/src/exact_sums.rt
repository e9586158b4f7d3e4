//! Sums of segments over whole numbers.

ghost use Rattle.std.specs.Prelude.{length};
ghost use Rattle.cvl_base.specs.Exact.{total_of};
ghost use Rattle.cvl_base.specs.Rooms.{Overwrites, in_room};
ghost use Rattle.segment_values.specs.Values.{each_of};

use crate::values::{SegmentValue, values_over};
use cvl_base::Fault;
use scan_walks::total;
use segdes::SegLengths;

/// The sum over whole numbers.
struct ExactSum;

impl SegmentValue<i32, i64> for ExactSum {
    ghost value = { total_of };

    fn of(segment: &[i32]) -> i64 {
        total(segment)
    }
}

/// The sum of each segment over whole numbers, in 64 bits: no sum of at most 2,147,483,647 integers of 32 bits exceeds them.
///
/// `LengthMismatch`, without a place, if the segments do not add up to the vector, or the room does not have a place for each
/// segment; it is then as before.
pub fn seg_exact_sums_over(a: &[i32], d: &SegLengths, out: &mut [i64]) -> Result<(), Fault>
    ensures { Overwrites (in_room (length out.old) (each_of total_of a.now d.now)) result out.old out.new }
{
    values_over::<i32, i64, ExactSum>(a, d, out)
}
