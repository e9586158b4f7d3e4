//! How many runs begin in a part: in its head, and in each segment that starts in it.

ghost use Rattle.std.specs.Prelude.{◌≡◌, ◌≤◌, length};
ghost use Rattle.c_calls.specs.Rooms.{Fills};
ghost use Rattle.cvl_base.specs.Limits.{most_places};
ghost use Rattle.run_parts.specs.Calls.{part_run_counts_by, run_fronts_by};
ghost use Rattle.run_parts.specs.Counts.{part_run_counts_of};

use crate::heads::{going_on_in_head, lacks_range};
use crate::puts::add_to_last;
use crate::walks::{count_runs, write_segment_counts};
use c_calls::checks::{check_limit, segments};
use cvl_base::{Binary, Fault, FaultNo, check_agree};
use segdes::SegLengths;
use segment_parts::is_part;

/// How many runs begin in a part's head, its `head` elements from place `from` of the vector on, which go on from a segment that
/// began before the part: an element begins a run if it differs from the one before it, or if none is before it.
///
/// `TooLong`, without a place, if the vector has more than 2,147,483,647 elements; `LengthMismatch`, without a place, if it
/// has not so many from `from` on. Source: reduce_by_key of Thrust over tiles.
pub fn part_run_fronts<X: Copy, D: Binary<X, bool>>(
    from: usize,
    head: usize,
    a: &[X],
) -> Result<i32, Fault>
    ensures { result ≡ run_fronts_by D.value from head a.now }
{
    check_limit(a)?;
    if lacks_range(a, from, head) {
        return Err(Fault::new(FaultNo::LengthMismatch));
    }
    let first = from + going_on_in_head::<X, D>(a, from, head);
    Ok(count_runs::<X, D>(&a[first..from + head]) as i32)
}

/// [`part_run_counts`] of a part of at most 2,147,483,647 elements, by segments whose lengths are checked.
fn part_run_counts_over<X: Copy, D: Binary<X, bool>>(
    behind: &i32,
    head: usize,
    lengths: &SegLengths,
    a: &[X],
    out: &mut [i32],
) -> Result<(), Fault>
    requires in_limit { length a.now ≤ most_places }
    ensures { Fills (part_run_counts_of D.value behind.now head lengths.now a.now) result out.old out.new }
{
    if !is_part(head, lengths, a.len()) {
        return Err(Fault::new(FaultNo::LengthMismatch));
    }
    check_agree(lengths.count(), out.len())?;
    write_segment_counts::<X, D>(&a[head..], lengths, out);
    add_to_last(out, behind);
    Ok(())
}

/// The same as [`part_run_counts`]. Its contract names the integer itself; the contract of a call by value names the number of
/// its word.
fn part_run_counts_ref<X: Copy, D: Binary<X, bool>>(
    behind: &i32,
    head: usize,
    lengths: &[i32],
    a: &[X],
    out: &mut [i32],
) -> Result<(), Fault>
    ensures { Fills (part_run_counts_by D.value behind.now head lengths.now a.now) result out.old out.new }
{
    check_limit(a)?;
    let d = segments(lengths)?;
    part_run_counts_over::<X, D>(behind, head, &d, a, out)
}

/// Writes how many runs each segment has that starts in a part. The first `head` elements of the part go on from a segment that
/// began before it; then there are segments with these lengths, the last of which may be longer than the part. `behind`, how many
/// runs of that one begin behind the part, is added to the last count, and wraps to 32 bits.
///
/// `TooLong`, without a place, if the part has more than 2,147,483,647 elements; then the lengths are checked, as [`segments`]
/// says; `LengthMismatch`, without a place, if the room has not one place for each length, if `head` and the lengths but the
/// last are more than the elements, or if `head` and all lengths are fewer. The room is then as before. Source: reduce_by_key
/// of Thrust over tiles.
pub fn part_run_counts<X: Copy, D: Binary<X, bool>>(
    behind: i32,
    head: usize,
    lengths: &[i32],
    a: &[X],
    out: &mut [i32],
) -> Result<(), Fault>
    ensures { Fills (part_run_counts_by D.value behind head lengths.now a.now) result out.old out.new }
{
    part_run_counts_ref::<X, D>(&behind, head, lengths, a, out)
}
