//! Where the texts and the integers of parts stand in one room, each behind those of the parts before.

ghost use Rattle.std.specs.Prelude.{◌≡◌, ◌+◌, ◌≤◌, ◌∷◌, ◌++◌, [], Ok, length, map, nat_lt, sum};
ghost use Rattle.cvl_base.specs.declared.fault.FaultNo.TheVariants as no;
ghost use Rattle.cvl_base.specs.Faults.{fault};
ghost use Rattle.cvl_base.specs.Folds.{scan_of};
ghost use Rattle.cvl_base.specs.Gives.{fault_if};
ghost use Rattle.part_records.specs.Places.{fitted, layout, layout_or};
ghost use Rattle.text_parts.specs.Places.{placed_by, size_layout_by, text_layout_by};
ghost use Rattle.text_parts.specs.Rooms.{most_bytes};

use crate::rooms::MOST_BYTES;
use cvl_base::limits::MOST_PLACES;
use cvl_base::{Fault, FaultNo, check_agree};

/// How much of a room the parts of a call take, by the numbers that they told.
trait Takes {
    ghost use Rattle.std.specs.Prelude.{ℕ};

    ghost taken: { ℕ → ℕ };

    ghost end: { ℕ → ℕ };

    /// How many places a part takes that told this number.
    fn taken(told: usize) -> usize
        ensures { result ≡ taken told };

    /// Where the result of all parts ends, of which they take so many places.
    fn end(all: usize) -> usize
        requires { all ≤ MOST_BYTES }
        ensures { result ≡ end all };
}

/// Parts that told how many elements they have.
struct Elements;

impl Takes for Elements {
    ghost taken = { λ told. told };

    ghost end = { λ all. all };

    fn taken(told: usize) -> usize {
        told
    }

    fn end(all: usize) -> usize {
        all
    }
}

/// Parts that told how many bytes their own text has, in brackets.
struct Texts;

impl Takes for Texts {
    ghost use Rattle.text_parts.specs.Places.{piece_length, text_length};

    ghost taken = { piece_length };

    ghost end = { text_length };

    fn taken(told: usize) -> usize {
        if told > 2 { told - 1 } else { 0 }
    }

    fn end(all: usize) -> usize {
        if all == 0 { 2 } else { all + 1 }
    }
}

/// Writes where the integers of each part begin, of which `counts` has the numbers, and at last where they all end; and tells how
/// many they are. `LengthMismatch`, without a place, if these are more than `room`, the places of the room.
///
/// `TooLong`, without a place, if a vector can't have so many, and `LengthMismatch` if there is not one place more than counts;
/// then nothing is written. Source: Blelloch's scan of the counts of a pack.
pub fn size_places(
    counts: &[usize],
    room: usize,
    places: &mut [usize],
    total: &mut usize,
) -> Result<(), Fault>
    ensures answer { result ≡ fitted room (size_layout_by (length places.old) counts.now) }
    ensures told { layout places.new total.new
        ≡ layout_or (layout places.old total.old) (size_layout_by (length places.old) counts.now) }
{
    place_parts::<Elements>(MOST_PLACES, counts, room, places, total)
}

/// Writes where the piece of each part begins in the text of all, and at last where that ends; and tells how many bytes it has.
/// `counts` has the lengths of the parts' own texts, of which `[]` has no elements. `LengthMismatch`, without a place, if the
/// text of all has more bytes than `room`, the places of the room.
///
/// `TooLong`, without a place, if no memory can hold it, and `LengthMismatch` if there is not one place more than counts; then
/// nothing is written. Source: this library's text format.
pub fn text_places(
    counts: &[usize],
    room: usize,
    places: &mut [usize],
    total: &mut usize,
) -> Result<(), Fault>
    ensures answer { result ≡ fitted room (text_layout_by (length places.old) counts.now) }
    ensures told { layout places.new total.new
        ≡ layout_or (layout places.old total.old) (text_layout_by (length places.old) counts.now) }
{
    place_parts::<Texts>(MOST_BYTES, counts, room, places, total)
}

/// Writes where what each part takes begins, and at last where all of it ends, and tells that.
fn place_parts<S: Takes>(
    most: usize,
    told: &[usize],
    room: usize,
    places: &mut [usize],
    total: &mut usize,
) -> Result<(), Fault>
    requires { most ≤ MOST_BYTES }
    ensures answer { result ≡ fitted room (placed_by S.taken S.end most (length places.old) told.now) }
    ensures told { layout places.new total.new
        ≡ layout_or (layout places.old total.old) (placed_by S.taken S.end most (length places.old) told.now) }
{
    let all = taken_by_all::<S>(most, told)?;
    check_agree(told.len() + 1, places.len())?;
    let end = S::end(all);
    *total = end;
    write_places::<S>(told, end, places);
    if end > room {
        return Err(Fault::new(FaultNo::LengthMismatch));
    }
    Ok(())
}

/// How much all parts take, or `TooLong`, without a place, if that is more than `most`.
fn taken_by_all<S: Takes>(most: usize, told: &[usize]) -> Result<usize, Fault>
    ensures { result ≡ fault_if (nat_lt most (sum (map S.taken told.now))) (fault no.TooLong) (Ok (sum (map S.taken told.now))) }
{
    let mut so_far = 0;
    for number in told {
        let taken = S::taken(*number);
        if taken > most - so_far {
            return Err(Fault::new(FaultNo::TooLong));
        }
        so_far += taken;
    }
    Ok(so_far)
}

/// Writes where what each part takes begins, and this end behind them.
#[inline(never)]
fn write_places<S: Takes>(told: &[usize], end: usize, places: &mut [usize])
    requires few { sum (map S.taken told.now) ≤ most_bytes }
    requires room { length places.old ≡ length told.now + 1 }
    ensures { places.new ≡ scan_of ◌+◌ 0 (map S.taken told.now) ++ end ∷ [] }
{
    let mut place = 0;
    for k in 0..told.len() {
        places[k] = place;
        place += S::taken(told[k]);
    }
    places[told.len()] = end;
}
