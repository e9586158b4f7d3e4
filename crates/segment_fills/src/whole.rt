//! Copies and numbers by segments of a whole vector.

ghost use Rattle.std.specs.Prelude.{length};
ghost use Rattle.cvl_base.specs.Limits.{most_places};
ghost use Rattle.cvl_base.specs.Rooms.{Overwrites, in_room};
ghost use Rattle.cvl_base.specs.SegmentedCalls.{seg_distribute_within, seg_index_within};

use crate::copies::fill_starts;
use crate::numbers::number_starts;
use cvl_base::{Fault, check_agree};
use segdes::SegLengths;

/// For each segment as many copies of its value as the segment is long, one segment after another: `dis_vez` and its like.
///
/// `LengthMismatch`, without a place, if there isn't one value for each segment, or if the room is not as long as the segments
/// together, at most 2,147,483,647 elements; the room is then as before. It takes no memory. Source: CVL's segmented distribute.
pub fn seg_distribute_over<T: Copy>(
    values: &[T],
    d: &SegLengths,
    out: &mut [T],
) -> Result<(), Fault>
    ensures { Overwrites (in_room (length out.old) (seg_distribute_within most_places values.now d.now)) result out.old out.new }
{
    check_agree(values.len(), d.count())?;
    check_agree(d.total(), out.len())?;
    fill_starts(d.lengths(), values, out);
    Ok(())
}

/// For each segment the numbers from its `init` on in steps of its `stride`, each wrapped to 32 bits, one segment after another:
/// `ind_lez`.
///
/// `LengthMismatch`, without a place, if there isn't one init and one stride for each segment, or if the room is not as long as
/// the segments together, at most 2,147,483,647 numbers; the room is then as before. It takes no memory. Source: CVL's segmented
/// index.
pub fn seg_index_over(
    inits: &[i32],
    strides: &[i32],
    d: &SegLengths,
    out: &mut [i32],
) -> Result<(), Fault>
    ensures { Overwrites (in_room (length out.old) (seg_index_within most_places inits.now strides.now d.now))
        result out.old out.new }
{
    check_agree(inits.len(), strides.len())?;
    check_agree(inits.len(), d.count())?;
    check_agree(d.total(), out.len())?;
    number_starts(d.lengths(), inits, strides, out);
    Ok(())
}
