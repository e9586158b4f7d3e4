//! The runs of a whole vector.

ghost use Rattle.std.specs.Prelude.{◌≤◌, length, Ok};
ghost use Rattle.cvl_base.specs.Limits.{most_places};
ghost use Rattle.cvl_base.specs.Rooms.{OverwritesFront};
ghost use Rattle.run_lengths.specs.Runs.{run_numbers_of};

use crate::numbers::RunNumber;
use crate::walks::{count_runs, write_runs};
use cvl_base::{Binary, Fault, FaultNo};

/// A number for each run of neighbours that do not differ, at the front of the room, whose rest stays as it is.
///
/// There are at most 2,147,483,647 elements. The count becomes the number of runs. If the room is too short for these, the fault
/// is `LengthMismatch`, without a place, and the room is as before. A room as long as the vector is never too short, and saves a
/// pass.
pub fn run_numbers_over<X: Copy, D: Binary<X, bool>, N: RunNumber>(
    a: &[X],
    out: &mut [i32],
    count: &mut usize,
) -> Result<(), Fault>
    requires few { length a.now ≤ most_places }
    ensures { OverwritesFront (Ok (run_numbers_of N.number D.value a.now)) result out.old out.new count.old count.new }
{
    if out.len() < a.len() {
        let runs = count_runs::<X, D>(a);
        if runs > out.len() {
            *count = runs;
            return Err(Fault::new(FaultNo::LengthMismatch));
        }
    }
    *count = write_runs::<X, D, N>(a, 0, out, 0);
    Ok(())
}
