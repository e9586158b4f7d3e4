//! Where the words of marks of each part begin.

ghost use Rattle.std.specs.Prelude.{◌≡◌, ◌+◌, ◌-◌, ◌≤◌, ℕ, Ok, length};
ghost use Rattle.cvl_base.specs.Rooms.{Overwrites, in_room};
ghost use Rattle.permute_parts.specs.Marks.{mark_place, mark_places_of, within_longest};
ghost use Rattle.permute_walks.specs.Marks.{words_for};

use cvl_base::limits::MOST_PLACES;
use cvl_base::{Fault, FaultNo, check_agree};
use permute_walks::marks::WORD_BITS;

/// `TooLong`, without a place, if one of these places is beyond the longest vector.
fn check_begins(from: &[usize]) -> Result<(), Fault>
    ensures { result ≡ within_longest from.now (Ok tt) }
{
    let mut within = true;
    for place in from {
        within &= *place <= MOST_PLACES;
    }
    if !within {
        return Err(Fault::new(FaultNo::TooLong));
    }
    Ok(())
}

/// Writes where the words of each part begin into a room that is as long.
#[inline(never)]
fn write_mark_places(from: &[usize], places: &mut [usize])
    requires as_long { length from.now ≡ length places.old }
    ensures { places.new ≡ mark_places_of from.now }
{
    for k in 0..from.len() {
        places[k] = from[k] / WORD_BITS + k;
    }
}

/// Writes where the words of marks of each part begin, among those of all parts. A part begins at place `from[k]` of the result,
/// and has a bit for each place of its range, 32 in a word; no two parts share a word. If `from` has the end of the last part
/// too, the last number written is how many words all parts have.
///
/// `TooLong`, without a place, if one of these places is more than 2,147,483,647; `LengthMismatch`, without a place, if there is
/// not one number to write for each. After a fault all is as before.
pub fn mark_places(from: &[usize], places: &mut [usize]) -> Result<(), Fault>
    ensures { Overwrites (in_room (length places.old) (within_longest from.now (Ok (mark_places_of from.now))))
        result places.old places.new }
{
    check_begins(from)?;
    check_agree(from.len(), places.len())?;
    write_mark_places(from, places);
    Ok(())
}

/// From where a part's words of marks begin up to where those of the next part begin, there are as many words as its range needs.
pub fn know_marks_fit()
    ensures { (k from to : ℕ) → from ≤ to → mark_place k from + words_for (to - from) ≤ mark_place (k + 1) to }
{}
