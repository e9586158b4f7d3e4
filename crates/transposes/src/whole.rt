//! The transpose of a whole matrix.

ghost use Rattle.std.specs.Prelude.{◌≤◌, length};
ghost use Rattle.cvl_base.specs.Limits.{most_places};
ghost use Rattle.cvl_base.specs.Rooms.{Overwrites, in_room};
ghost use Rattle.transposes.specs.Transposes.{transpose_of};

use crate::blocks::transpose_columns;
use crate::matrices::{Matrix, check_shape};
use cvl_base::{Fault, check_agree};

/// The transpose of a matrix in row order: element `r` of row `c` of the result is element `c` of row `r`.
///
/// The matrix has `rows` rows of `columns` elements each, at most 2,147,483,647 in all. `LengthMismatch`, without a place, if
/// that is not the length of the source, or of the room, which is then as before.
pub fn transpose_over<T: Copy>(
    source: &[T],
    rows: usize,
    columns: usize,
    out: &mut [T],
) -> Result<(), Fault>
    requires in_limit { length source.now ≤ most_places }
    ensures { Overwrites (in_room (length out.old) (transpose_of rows columns source.now)) result out.old out.new }
{
    check_shape(rows, columns, source.len())?;
    check_agree(source.len(), out.len())?;
    let matrix = Matrix {
        elements: source,
        rows,
        columns,
    };
    transpose_columns(&matrix, 0, columns, out);
    Ok(())
}
