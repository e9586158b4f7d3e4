//! Slices of a vector in a row. The first walk checks all slices, and the second copies them.

ghost use Rattle.std.specs.Prelude.{◌≡◌, ◌≤◌, Ok, Err, IfOk, MatchResult, length, pos, unsigned_abs};
ghost use Rattle.cvl_base.specs.Limits.{most_places};
ghost use Rattle.cvl_base.specs.Lists.{joined};
ghost use Rattle.cvl_base.specs.Rooms.{Overwrites, in_room};
ghost use Rattle.segment_slices.specs.Slices.{AreSlices, gather_segments_of, is_slice, slices_of};

use crate::copies::copy_slice;
use cvl_base::{Fault, FaultNo, check_agree};

/// Whether `length` elements from a start on are among `count`.
#[inline]
fn is_slice(count: usize, start: &i32, length: &i32) -> bool
    ensures { result ≡ is_slice count start.now length.now }
{
    if *start < 0 || *length < 0 {
        return false;
    }
    *start as usize + *length as usize <= count
}

/// A number that is not negative, as a count.
#[inline]
fn as_count(number: &i32) -> usize
    requires { number.now ≡ pos (unsigned_abs number.now) }
    ensures value { result ≡ unsigned_abs number.now }
    ensures in_limit { result ≤ most_places }
{
    *number as usize
}

/// How many elements the slices have in all.
///
/// `LengthMismatch`, without a place, if there are not as many starts as lengths; `IndexOutOfRange` at the number of the first
/// slice that is not within the source: one with a negative start, a negative length or an end past the source.
#[inline(never)]
pub fn check_slices<T>(source: &[T], starts: &[i32], lengths: &[i32]) -> Result<usize, Fault>
    requires few { length starts.now ≤ most_places }
    ensures meaning { MatchResult result (λ _. gather_segments_of source.now starts.now lengths.now
        ≡ Ok (joined (slices_of source.now starts.now lengths.now)))
        (λ f. gather_segments_of source.now starts.now lengths.now ≡ Err f) }
    ensures slices { IfOk result (λ _. AreSlices (length source.now) starts.now lengths.now) }
    ensures total { IfOk result (λ total. total ≡ length (joined (slices_of source.now starts.now lengths.now))) }
{
    check_agree(starts.len(), lengths.len())?;
    let mut total = 0;
    for s in 0..starts.len() {
        if !is_slice(source.len(), &starts[s], &lengths[s]) {
            return Err(Fault::at(FaultNo::IndexOutOfRange, s as u32));
        }
        total += as_count(&lengths[s]);
    }
    Ok(total)
}

/// Copies the slices, checked before, in a row into a room that is as long as they are together.
#[inline(never)]
pub fn write_slices<T: Copy>(source: &[T], starts: &[i32], lengths: &[i32], out: &mut [T])
    requires slices { AreSlices (length source.now) starts.now lengths.now }
    requires as_long { length out.old ≡ length (joined (slices_of source.now starts.now lengths.now)) }
    ensures { out.new ≡ joined (slices_of source.now starts.now lengths.now) }
{
    let mut end = 0;
    for s in 0..starts.len() {
        let first = as_count(&starts[s]);
        let count = as_count(&lengths[s]);
        copy_slice(source, first, count, out, end);
        end += count;
    }
}

/// The slices of a source in a row: slice s begins at place `starts[s]` and has `lengths[s]` elements. Slices may overlap, come
/// in any order and be empty; an empty one may begin at the end of the source.
///
/// There are as many starts as lengths, at most 2,147,483,647, else `LengthMismatch`, without a place. `IndexOutOfRange` at the
/// number of the first slice that is not within the source: one with a negative start, a negative length or an end past the
/// source. `LengthMismatch` if the room is not as long as all slices together. After a fault the room is as before.
pub fn gather_segments_over<T: Copy>(
    source: &[T],
    starts: &[i32],
    lengths: &[i32],
    out: &mut [T],
) -> Result<(), Fault>
    requires few { length starts.now ≤ most_places }
    ensures { Overwrites (in_room (length out.old) (gather_segments_of source.now starts.now lengths.now))
        result out.old out.new }
{
    let total = check_slices(source, starts, lengths)?;
    check_agree(total, out.len())?;
    write_slices(source, starts, lengths, out);
    Ok(())
}
