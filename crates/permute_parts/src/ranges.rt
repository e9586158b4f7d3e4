//! One part of a permute: a range of its result.

ghost use Rattle.std.specs.Prelude.{◌≡◌, ◌+◌, ◌≤◌, ◌++◌, Ok, drop, length};
ghost use Rattle.cvl_base.specs.Limits.{most_places};
ghost use Rattle.part_calls.specs.Ranges.{WritesRange, count_of_range, marks_of_range, room_of_range};
ghost use Rattle.permute_parts.specs.Ranges.{if_part, part_default_of, part_permute_of, part_select_of};
ghost use Rattle.permute_walks.specs.Marks.{words_for};

use cvl_base::limits::MOST_PLACES;
use cvl_base::{Fault, FaultNo, check_agree};
use permute_walks::{
    AllDestinations, Destinations, FlaggedDestinations, count_marks, words_for, write_range,
};

/// Checks of each part: `TooLong` if it has more than 2,147,483,647 indices, or its range ends beyond that many places;
/// `LengthMismatch` if there is not one index for each element, or there are fewer words of marks than the places need.
fn check_part(
    elements: usize,
    indices: usize,
    from: usize,
    places: usize,
    words: usize,
) -> Result<(), Fault>
    ensures { result ≡ if_part elements indices from places words (Ok tt) }
{
    if indices > MOST_PLACES || from > MOST_PLACES || places > MOST_PLACES - from {
        return Err(Fault::new(FaultNo::TooLong));
    }
    check_agree(elements, indices)?;
    if words < words_for(places) {
        return Err(Fault::new(FaultNo::LengthMismatch));
    }
    Ok(())
}

/// Writes and marks the places of one range, whatever its marks hold before, and returns how many are marked. Words behind those
/// that the places need stay as they are.
fn write_part<T: Copy, D: Destinations>(
    source: &[T],
    destinations: &D,
    from: usize,
    out: &mut [T],
    marks: &mut [u32],
) -> usize
    requires sourced { length source.now ≡ length (D.destinations destinations.now) }
    requires few { length (D.destinations destinations.now) ≤ most_places }
    requires within { from + length out.old ≤ most_places }
    requires words { words_for (length out.old) ≤ length marks.old }
    ensures written { out.new ≡ room_of_range source.now (D.destinations destinations.now) from out.old }
    ensures marked { marks.new
        ≡ marks_of_range (D.destinations destinations.now) from (length out.old) ++ drop (words_for (length out.old)) marks.old }
    ensures counted { result ≡ count_of_range (D.destinations destinations.now) from (length out.old) }
{
    let (own, _) = marks.split_at_mut(words_for(out.len()));
    own.fill(0);
    write_range(source, destinations, from, out, own);
    count_marks(own)
}

/// One part of a simple permute, whose range begins at place `from` of the result: writes each element that goes to a place of
/// it, marks these places, and returns their number. The room has the range's length, and the marks have a bit for each place of
/// it, 32 in a word, the lowest first. The marks may hold anything before, and may have more words, which stay as they are.
///
/// `TooLong`, without a place, if there are more than 2,147,483,647 indices or the range ends beyond that many places;
/// `LengthMismatch`, without a place, if source and index differ in length, or the marks have fewer words than the room's places
/// need. After a fault all is as before.
pub fn part_permute<T: Copy>(
    from: usize,
    source: &[T],
    index: &[i32],
    out: &mut [T],
    marks: &mut [u32],
) -> Result<usize, Fault>
    ensures { WritesRange (part_permute_of source.now index.now from out.old marks.old) result
        (out.old, marks.old) (out.new, marks.new) }
{
    check_part(source.len(), index.len(), from, out.len(), marks.len())?;
    Ok(write_part(source, &AllDestinations { index }, from, out, marks))
}

/// One part of a select permute, in the same way: only elements whose flag is true go anywhere. `LengthMismatch` also if index
/// and flags differ in length.
pub fn part_select_permute<T: Copy>(
    from: usize,
    source: &[T],
    index: &[i32],
    flags: &[bool],
    out: &mut [T],
    marks: &mut [u32],
) -> Result<usize, Fault>
    ensures { WritesRange (part_select_of source.now index.now flags.now from out.old marks.old) result
        (out.old, marks.old) (out.new, marks.new) }
{
    check_part(source.len(), index.len(), from, out.len(), marks.len())?;
    check_agree(index.len(), flags.len())?;
    Ok(write_part(
        source,
        &FlaggedDestinations { index, flags },
        from,
        out,
        marks,
    ))
}

/// One part of a default permute, in the same way, over the part's range of the defaults. `LengthMismatch` also if that is not
/// as long as the room.
pub fn part_default_permute<T: Copy>(
    from: usize,
    source: &[T],
    index: &[i32],
    defaults: &[T],
    out: &mut [T],
    marks: &mut [u32],
) -> Result<usize, Fault>
    ensures { WritesRange (part_default_of source.now index.now from defaults.now out.old marks.old) result
        (out.old, marks.old) (out.new, marks.new) }
{
    check_part(source.len(), index.len(), from, out.len(), marks.len())?;
    check_agree(defaults.len(), out.len())?;
    out.copy_from_slice(defaults);
    let count = write_part(source, &AllDestinations { index }, from, out, marks);
    Ok(count)
}
