//! The lengths of the runs that begin in a part.

ghost use Rattle.std.specs.Prelude.{◌≡◌, ◌+◌, ◌≤◌, length};
ghost use Rattle.cvl_base.specs.Limits.{most_places};
ghost use Rattle.cvl_base.specs.Rooms.{OverwritesFront};
ghost use Rattle.run_parts.specs.Calls.{part_runs_by};
ghost use Rattle.run_parts.specs.Runs.{begin_or, part_runs_of, run_lengths_of};

use crate::heads::{going_on_in_head, lacks_range};
use crate::walks::{write_runs, write_segment_runs};
use c_calls::checks::{check_limit, segments};
use cvl_base::{Binary, Fault, FaultNo};
use segdes::SegLengths;
use segment_parts::is_part;

/// [`part_run_lengths`] of a vector of at most 2,147,483,647 elements, by segments whose lengths are checked.
fn part_runs_over<X: Copy, D: Binary<X, bool>>(
    from: usize,
    head: usize,
    a: &[X],
    lengths: &SegLengths,
    own: &mut [i32],
    begin: &mut usize,
    count: &mut usize,
) -> Result<(), Fault>
    requires in_limit { length a.now ≤ most_places }
    ensures lengths { OverwritesFront (run_lengths_of (part_runs_of D.value from (length own.old) head lengths.now a.now))
        result own.old own.new count.old count.new }
    ensures begin { begin.new
        ≡ begin_or begin.old (from + length own.old) (part_runs_of D.value from (length own.old) head lengths.now a.now) }
{
    let elements = own.len();
    if lacks_range(a, from, elements) || !is_part(head, lengths, elements) {
        return Err(Fault::new(FaultNo::LengthMismatch));
    }
    let first = from + going_on_in_head::<X, D>(a, from, head);
    let starts = from + head;
    let in_head = write_runs::<X, D>(&a[first..starts], own, 0);
    *begin = first;
    *count = write_segment_runs::<X, D>(&a[starts..from + elements], lengths, own, in_head);
    Ok(())
}

/// Writes the length of each run that begins in a part of the vector, in order, to the front of `own`, as far as the part goes.
/// The part has the elements from place `from` on, as many as `own` has places. The first `head` go on from a segment that began
/// before the part, and begin a run if they differ from the element before them; then there are segments with these lengths, the
/// last of which may be longer than the part. `count` becomes the number of these runs, and `begin` the place where the first of
/// them begins, or where the part ends if none does.
///
/// `TooLong`, without a place, if the vector has more than 2,147,483,647 elements; then the lengths are checked, as [`segments`]
/// says; `LengthMismatch`, without a place, if the vector has not so many elements from `from` on, if `head` and the lengths but
/// the last are more than the part's, or if `head` and all lengths are fewer. Nothing is written then. Source: reduce_by_key of
/// Thrust over tiles.
pub fn part_run_lengths<X: Copy, D: Binary<X, bool>>(
    from: usize,
    head: usize,
    a: &[X],
    lengths: &[i32],
    own: &mut [i32],
    begin: &mut usize,
    count: &mut usize,
) -> Result<(), Fault>
    ensures lengths { OverwritesFront (run_lengths_of (part_runs_by D.value from (length own.old) head lengths.now a.now))
        result own.old own.new count.old count.new }
    ensures begin { begin.new
        ≡ begin_or begin.old (from + length own.old) (part_runs_by D.value from (length own.old) head lengths.now a.now) }
{
    check_limit(a)?;
    let d = segments(lengths)?;
    part_runs_over::<X, D>(from, head, a, &d, own, begin, count)
}
