//! Copies and numbers in parts whose segments are given as their lengths, which are checked first, as [`segments`] says.
//!
//! A part has at most 2,147,483,647 elements, else `TooLong`, without a place.

ghost use Rattle.cvl_base.specs.Rooms.{Overwrites};
ghost use Rattle.segment_fills.specs.Calls.{part_distribute_by, part_index_by};

use crate::copies::part_copies_over;
use crate::numbers::part_numbers_over;
use c_calls::checks::{check_limit, segments};
use cvl_base::Fault;

/// Writes the values of a part's segments, each as often as the part has elements of the segment, as [`part_copies_over`] does.
pub fn part_distribute<T: Copy>(
    head: usize,
    lengths: &[i32],
    values: &[T],
    out: &mut [T],
) -> Result<(), Fault>
    ensures { Overwrites (part_distribute_by head lengths.now values.now out.old) result out.old out.new }
{
    check_limit(out)?;
    let d = segments(lengths)?;
    part_copies_over(head, &d, values, out)
}

/// Writes the numbers of a part's segments, as [`part_numbers_over`] does.
pub fn part_index(
    done: usize,
    head: usize,
    lengths: &[i32],
    inits: &[i32],
    strides: &[i32],
    out: &mut [i32],
) -> Result<(), Fault>
    ensures { Overwrites (part_index_by done head lengths.now inits.now strides.now out.old) result out.old out.new }
{
    check_limit(out)?;
    let d = segments(lengths)?;
    part_numbers_over(done, head, &d, inits, strides, out)
}
