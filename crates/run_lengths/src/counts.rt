//! How many runs each segment has.

ghost use Rattle.std.specs.Prelude.{length};
ghost use Rattle.cvl_base.specs.Rooms.{Overwrites, in_room};
ghost use Rattle.run_lengths.specs.Runs.{run_count_of};
ghost use Rattle.segment_values.specs.Values.{each_of};

use crate::walks::count_runs;
use cvl_base::{Binary, Fault};
use segdes::SegLengths;
use segment_values::{SegmentValue, values_over};
use std::marker::PhantomData;

/// The number of runs.
struct RunCount<D> {
    differ: PhantomData<D>,
}

impl<X: Copy, D: Binary<X, bool>> SegmentValue<X, i32> for RunCount<D> {
    ghost value = { run_count_of D.value };

    fn of(segment: &[X]) -> i32 {
        count_runs::<X, D>(segment) as i32
    }
}

/// The number of runs of each segment.
///
/// `LengthMismatch`, without a place, if the segments do not add up to the vector, or the room does not have a place for each
/// segment; it is then as before.
pub fn seg_run_counts_over<X: Copy, D: Binary<X, bool>>(
    a: &[X],
    d: &SegLengths,
    out: &mut [i32],
) -> Result<(), Fault>
    ensures { Overwrites (in_room (length out.old) (each_of (run_count_of D.value) a.now d.now)) result out.old out.new }
{
    values_over::<X, i32, RunCount<D>>(a, d, out)
}
