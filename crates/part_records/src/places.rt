//! Where the results of parts stand in one room, each behind those of the parts before.

ghost use Rattle.std.specs.Prelude.{◌≡◌, ◌+◌, ◌≤◌, length, sum};
ghost use Rattle.cvl_base.specs.Limits.{most_places};
ghost use Rattle.part_records.specs.Places.{fitted, layout, layout_by, layout_of, layout_or};

use cvl_base::limits::MOST_PLACES;
use cvl_base::{Fault, FaultNo, check_agree};
use segdes::SegLengths;

/// Writes where the result of each part begins, of which `counts` has the lengths, and at last where they all end; and tells how
/// many elements they have. `LengthMismatch`, without a place, if these are more than `room`, the places of the room.
///
/// `TooLong` or `NegativeLength` if the counts are not the lengths of a vector's parts, and `LengthMismatch` if there is not one
/// place more than counts; then nothing is written. Source: Blelloch's scan of the counts of a pack.
pub fn part_places(
    counts: &[i32],
    room: usize,
    places: &mut [usize],
    total: &mut usize,
) -> Result<(), Fault>
    ensures answer { result ≡ fitted room (layout_by (length places.old) counts.now) }
    ensures told { layout places.new total.new
        ≡ layout_or (layout places.old total.old) (layout_by (length places.old) counts.now) }
{
    if counts.len() > MOST_PLACES {
        return Err(Fault::new(FaultNo::TooLong));
    }
    let lengths = SegLengths::of(counts)?;
    check_agree(counts.len() + 1, places.len())?;
    *total = lengths.total();
    write_places(&lengths, places);
    if lengths.total() > room {
        return Err(Fault::new(FaultNo::LengthMismatch));
    }
    Ok(())
}

/// Writes where results with these lengths begin, and at last where they end.
#[inline(never)]
fn write_places(lengths: &SegLengths, places: &mut [usize])
    requires few { sum lengths.now ≤ most_places }
    requires room { length places.old ≡ length lengths.now + 1 }
    ensures { places.new ≡ (layout_of lengths.now).places }
{
    let mut place = 0;
    for k in 0..lengths.count() {
        places[k] = place;
        place += lengths.length(k);
    }
    places[lengths.count()] = place;
}
