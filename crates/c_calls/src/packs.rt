//! Packs, of whole vectors and of segments, and how many elements they keep. Segments are given as lengths.

ghost use Rattle.cvl_base.specs.Packs.{pack_of};
ghost use Rattle.cvl_base.specs.Rooms.{OverwritesFront};
ghost use Rattle.cvl_base.specs.SegmentedCalls.{counts_of, seg_pack_of};
ghost use Rattle.c_calls.specs.Calls.{by_segments, in_limit};
ghost use Rattle.flag_calls.specs.Flags.{flags_of};
ghost use Rattle.c_calls.specs.Rooms.{Fills};

use crate::checks::{check_limit, segments};
use cvl_base::Fault;
use flag_calls::seg_count_over;
use pack_dist::{pack_over, seg_pack_values_over};

/// Writes the elements whose flag is true, in order, at the front of a room, and counts them.
pub fn pack<T: Copy>(
    values: &[T],
    flags: &[bool],
    out: &mut [T],
    count: &mut usize,
) -> Result<(), Fault>
    ensures { OverwritesFront (in_limit flags.now (pack_of values.now flags.now)) result out.old out.new count.old count.new }
{
    check_limit(flags)?;
    pack_over(values, flags, out, count)
}

/// Writes the elements of each segment whose flag is true, in order, segment by segment, at the front of a room. `count` is their
/// number.
pub fn pack_each<T: Copy>(
    values: &[T],
    flags: &[bool],
    lengths: &[i32],
    out: &mut [T],
    count: &mut usize,
) -> Result<(), Fault>
    ensures { OverwritesFront (by_segments lengths.now (seg_pack_of values.now flags.now))
        result out.old out.new count.old count.new }
{
    let d = segments(lengths)?;
    seg_pack_values_over(values, flags, &d, out, count)
}

/// Writes the number of true flags of each segment.
pub fn count_each(flags: &[u8], lengths: &[i32], out: &mut [i32]) -> Result<(), Fault>
    ensures { Fills (by_segments lengths.now (counts_of (flags_of flags.now))) result out.old out.new }
{
    let d = segments(lengths)?;
    seg_count_over(flags, &d, out)
}
