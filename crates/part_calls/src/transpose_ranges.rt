//! Transposes by ranges of their places. Each range has its own caller, who reads the whole matrix. The ranges in order are the
//! transpose.

ghost use Rattle.std.specs.Prelude.{length};
ghost use Rattle.cvl_base.specs.Rooms.{Overwrites};
ghost use Rattle.part_calls.specs.TransposeRanges.{few_turned_of};

use crate::limits::{check_end, check_few};
use cvl_base::Fault;
use transposes::transpose_range_over;

/// One range of a transpose: its places from place `lowest` on, as many as the room has.
///
/// The matrix has `rows` rows of `columns` elements each. `TooLong`, without a place, if there are more than 2,147,483,647
/// elements or the range ends beyond that many places; `LengthMismatch`, without a place, if rows times columns is not the length
/// of the source, or the range ends beyond the last place. After a fault the room is as before.
pub fn transpose_range_checked<T: Copy>(
    source: &[T],
    rows: usize,
    columns: usize,
    lowest: usize,
    out: &mut [T],
) -> Result<(), Fault>
    ensures { Overwrites (few_turned_of rows columns lowest (length out.old) source.now) result out.old out.new }
{
    check_few(source.len())?;
    check_end(lowest, out.len())?;
    transpose_range_over(source, rows, columns, lowest, out)
}
