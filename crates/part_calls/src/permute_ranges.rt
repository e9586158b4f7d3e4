//! Permutes by ranges of their result. Each range has its own caller, who reads all indices. If the counts of all ranges add up
//! to the number of places that take part, no place is bad, and the ranges in order are the permute. Otherwise the permute has a
//! fault, which the plain call reports.
//!
//! A default permute's range is a simple permute's, over a room that holds the defaults.

ghost use Rattle.std.specs.Prelude.{◌≡◌, ◌+◌, ◌≤◌, length};
ghost use Rattle.cvl_base.specs.Limits.{most_places};
ghost use Rattle.permute_walks.specs.Marks.{words_for};
ghost use Rattle.part_calls.specs.Ranges.{WritesRange, count_of_range, marks_of_range, room_of_range, select_range_of};
ghost use Rattle.part_calls.specs.Ranges.{simple_range_of};

use crate::limits::{check_end, check_few};
use cvl_base::{Fault, check_agree};
use permute_walks::{
    AllDestinations, Destinations, FlaggedDestinations, count_marks, words_for, write_range,
};

/// Writes and marks the places of one range, whatever its marks hold before, and returns how many are marked.
fn write_counted<T: Copy, D: Destinations>(
    source: &[T],
    destinations: &D,
    lowest: usize,
    out: &mut [T],
    marks: &mut [u32],
) -> usize
    requires sourced { length source.now ≡ length (D.destinations destinations.now) }
    requires few { length (D.destinations destinations.now) ≤ most_places }
    requires within { lowest + length out.old ≤ most_places }
    requires as_long { words_for (length out.old) ≡ length marks.old }
    ensures written { out.new ≡ room_of_range source.now (D.destinations destinations.now) lowest out.old }
    ensures marked { marks.new ≡ marks_of_range (D.destinations destinations.now) lowest (length out.old) }
    ensures counted { result ≡ count_of_range (D.destinations destinations.now) lowest (length out.old) }
{
    marks.fill(0);
    write_range(source, destinations, lowest, out, marks);
    count_marks(marks)
}

/// One range of a simple permute, from place `lowest` of the result on: writes each element that goes to a place of it, marks
/// these places, and returns their number. The room has the range's length, and the marks have a bit for each place of it, 32 in
/// a word, the lowest first. The marks may hold anything before; the bits after the last place become 0.
///
/// `TooLong`, without a place, if there are more than 2,147,483,647 indices or the range ends beyond that many places;
/// `LengthMismatch`, without a place, if source and index differ in length, or the marks do not have exactly the words that the
/// room's places need.
pub fn simple_range<T: Copy>(
    source: &[T],
    index: &[i32],
    lowest: usize,
    out: &mut [T],
    marks: &mut [u32],
) -> Result<usize, Fault>
    ensures { WritesRange (simple_range_of source.now index.now lowest out.old marks.old)
        result (out.old, marks.old) (out.new, marks.new) }
{
    check_few(index.len())?;
    check_end(lowest, out.len())?;
    check_agree(source.len(), index.len())?;
    check_agree(words_for(out.len()), marks.len())?;
    Ok(write_counted(source, &AllDestinations { index }, lowest, out, marks))
}

/// One range of a select permute, in the same way: only elements whose flag is true go anywhere. `LengthMismatch` also if index
/// and flags differ in length.
pub fn select_range<T: Copy>(
    source: &[T],
    index: &[i32],
    flags: &[bool],
    lowest: usize,
    out: &mut [T],
    marks: &mut [u32],
) -> Result<usize, Fault>
    ensures { WritesRange (select_range_of source.now index.now flags.now lowest out.old marks.old)
        result (out.old, marks.old) (out.new, marks.new) }
{
    check_few(index.len())?;
    check_end(lowest, out.len())?;
    check_agree(source.len(), index.len())?;
    check_agree(index.len(), flags.len())?;
    check_agree(words_for(out.len()), marks.len())?;
    Ok(write_counted(
        source,
        &FlaggedDestinations { index, flags },
        lowest,
        out,
        marks,
    ))
}
