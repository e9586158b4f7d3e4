//! Where the runs of each part go in one room, and how many elements the last run of each part has in later parts.

ghost use Rattle.std.specs.Prelude.{◌≡◌, ◌+◌, ◌≤◌, drop, length, sum};
ghost use Rattle.std.specs.List.{zip};
ghost use Rattle.cvl_base.specs.Limits.{most_places};
ghost use Rattle.part_records.specs.Places.{layout_of};
ghost use Rattle.run_parts.specs.Places.{last_or, run_behinds, run_layout, run_layout_by, run_layout_or, runs_fitted};

use cvl_base::{Fault, FaultNo, check_agree};
use part_records::part_total;

/// Writes where the runs of each part begin in one room, of which `counts` says how many they are, and at last where they all
/// end; tells how many there are; and writes how many elements are behind each part up to where the next run begins: at the
/// first of the later `begins` that is before its part's end, or where the whole ends. The parts begin at `from`, which has
/// the whole's end behind them. `LengthMismatch`, without a place, if there are more runs than `room`, the places of the room.
///
/// `TooLong`, without a place, if there are more than 2,147,483,647 runs, and `LengthMismatch` if there is not one `begins`
/// and one place of `behinds` for each count, and one place of `from` and `places` more; then nothing is written. Source:
/// Blelloch's scan of the counts of a pack; reduce_by_key of Thrust over tiles.
pub fn run_places(
    counts: &[usize],
    begins: &[usize],
    from: &[usize],
    room: usize,
    places: &mut [usize],
    behinds: &mut [usize],
    total: &mut usize,
) -> Result<(), Fault>
    ensures answer { result ≡ runs_fitted room
        (run_layout_by (length places.old) (length behinds.old) counts.now begins.now from.now) }
    ensures told { run_layout places.new total.new behinds.new
        ≡ run_layout_or (run_layout places.old total.old behinds.old)
        (run_layout_by (length places.old) (length behinds.old) counts.now begins.now from.now) }
{
    let runs = part_total(counts)?;
    check_agree(begins.len(), counts.len())?;
    check_agree(from.len(), counts.len() + 1)?;
    check_agree(places.len(), counts.len() + 1)?;
    check_agree(behinds.len(), counts.len())?;
    *total = runs;
    write_places(counts, places);
    write_behinds(begins, from, behinds);
    if runs > room {
        return Err(Fault::new(FaultNo::LengthMismatch));
    }
    Ok(())
}

/// Writes where lists with these lengths begin, and at last where they end.
fn write_places(counts: &[usize], places: &mut [usize])
    requires few { sum counts.now ≤ most_places }
    requires room { length places.old ≡ length counts.now + 1 }
    ensures { places.new ≡ (layout_of counts.now).places }
{
    let mut place = 0;
    for k in 0..counts.len() {
        places[k] = place;
        place += counts[k];
    }
    places[counts.len()] = place;
}

/// Writes how many elements are behind each part up to where the next run begins.
fn write_behinds(begins: &[usize], from: &[usize], behinds: &mut [usize])
    requires parts { length from.now ≡ length begins.now + 1 }
    requires room { length behinds.old ≡ length begins.now }
    ensures { behinds.new ≡ run_behinds (last_or 0 from.now) (zip begins.now (drop 1 from.now)) }
{
    let mut left = begins.len();
    let mut next = from[left];
    while left > 0 {
        let end = from[left];
        left -= 1;
        behinds[left] = next.saturating_sub(end);
        if begins[left] < end {
            next = begins[left];
        }
    }
}
