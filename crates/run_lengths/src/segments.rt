//! The runs of each segment.

ghost use Rattle.std.specs.Prelude.{◌≡◌, ◌≤◌, Ok, drop, length, sum, take};
ghost use Rattle.cvl_base.specs.Limits.{most_places};
ghost use Rattle.cvl_base.specs.Nests.{cut_of};
ghost use Rattle.cvl_base.specs.Rooms.{OverwritesFront};
ghost use Rattle.run_lengths.specs.Runs.{numbers_from, runs_in, seg_run_numbers_of};

use crate::numbers::RunNumber;
use crate::walks::{count_runs, write_runs};
use cvl_base::{Binary, Fault, FaultNo};
use segdes::SegLengths;

/// How many runs all segments have.
fn count_segments<X: Copy, D: Binary<X, bool>>(a: &[X], d: &SegLengths) -> usize
    requires total { sum d.now ≡ length a.now }
    requires in_limit { length a.now ≤ most_places }
    ensures { result ≡ length (runs_in D.value (cut_of d.now a.now)) }
{
    let (mut first, mut count) = (0, 0);
    for s in 0..d.count() {
        let end = first + d.length(s);
        count += count_runs::<X, D>(&a[first..end]);
        first = end;
    }
    count
}

/// Writes the number of each run of each segment to the front of a room, and returns how many runs there are.
fn write_segments<X: Copy, D: Binary<X, bool>, N: RunNumber>(
    a: &[X],
    d: &SegLengths,
    out: &mut [i32],
) -> usize
    requires total { sum d.now ≡ length a.now }
    requires in_limit { length a.now ≤ most_places }
    requires fits { length (runs_in D.value (cut_of d.now a.now)) ≤ length out.old }
    ensures count { result ≡ length (runs_in D.value (cut_of d.now a.now)) }
    ensures as_long { length out.new ≡ length out.old }
    ensures written { take result out.new ≡ numbers_from N.number 0 (runs_in D.value (cut_of d.now a.now)) }
    ensures behind { drop result out.new ≡ drop result out.old }
{
    let (mut first, mut count) = (0, 0);
    for s in 0..d.count() {
        let end = first + d.length(s);
        count = write_runs::<X, D, N>(&a[first..end], first, out, count);
        first = end;
    }
    count
}

/// The same of any room: if it is not as long as the vector, the runs are counted first.
fn segments_over<X: Copy, D: Binary<X, bool>, N: RunNumber>(
    a: &[X],
    d: &SegLengths,
    out: &mut [i32],
    count: &mut usize,
) -> Result<(), Fault>
    requires total { sum d.now ≡ length a.now }
    requires in_limit { length a.now ≤ most_places }
    ensures { OverwritesFront (Ok (numbers_from N.number 0 (runs_in D.value (cut_of d.now a.now))))
        result out.old out.new count.old count.new }
{
    if out.len() < a.len() {
        let runs = count_segments::<X, D>(a, d);
        if runs > out.len() {
            *count = runs;
            return Err(Fault::new(FaultNo::LengthMismatch));
        }
    }
    *count = write_segments::<X, D, N>(a, d, out);
    Ok(())
}

/// A number for each run of each segment, segment by segment, at the front of the room, whose rest stays as it is. A run ends
/// where its segment does. Places count from the start of the whole vector.
///
/// `LengthMismatch`, without a place, if the segments do not add up to the vector; room and count are then as before. Otherwise
/// the count becomes the number of runs, and if the room is too short for these, the fault is `LengthMismatch`, and the room is
/// as before. A room as long as the vector is never too short, and saves a pass.
pub fn seg_run_numbers_over<X: Copy, D: Binary<X, bool>, N: RunNumber>(
    a: &[X],
    d: &SegLengths,
    out: &mut [i32],
    count: &mut usize,
) -> Result<(), Fault>
    ensures { OverwritesFront (seg_run_numbers_of N.number D.value a.now d.now) result out.old out.new count.old count.new }
{
    d.check_total(a)?;
    segments_over::<X, D, N>(a, d, out, count)
}
