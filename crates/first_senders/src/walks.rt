//! The two walks over some neighbouring places: the first checks that each one that takes part names a place of the result, and
//! the second, from the last to the first, writes each at the place that it names.

ghost use Rattle.std.specs.Prelude.{◌≡◌, ◌+◌, ◌≤◌, count_by, drop, length, map, take};
ghost use Rattle.cvl_base.specs.Limits.{most_places};
ghost use Rattle.cvl_base.specs.Permutes.{first_fault};
ghost use Rattle.first_senders.specs.FirstSenders.{first_senders, wrong_in};
ghost use Rattle.permute_walks.specs.Senders.{fault_told, is_between};

use cvl_base::{Fault, FaultNo, place_among};
use permute_walks::Destinations;

/// Marks a place that no index names.
pub const NONE: i32 = -1;

/// `IndexOutOfRange` at the first of some places, from place `first` on, that takes part and whose index is no place of the
/// result.
#[inline(never)]
pub(crate) fn check_indices<D: Destinations>(
    destinations: &D,
    first: usize,
    count: usize,
    places: usize,
) -> Result<(), Fault>
    requires within { first + count ≤ length (D.destinations destinations.now) }
    requires in_limit { length (D.destinations destinations.now) ≤ most_places }
    ensures { fault_told result
        ≡ first_fault first (map (wrong_in places) (take count (drop first (D.destinations destinations.now)))) }
{
    for k in 0..count {
        let (index, takes_part) = destinations.at(first + k);
        if takes_part {
            let Some(_) = place_among(places, index) else {
                return Err(Fault::at(FaultNo::IndexOutOfRange, (first + k) as u32));
            };
        }
    }
    Ok(())
}

/// Writes the first sender of each place of a range of the result, which begins at place `lowest`: the least place from place
/// `first` on that takes part and names it, counted from that one, or `NONE`. Returns how many of these places name one of the
/// range.
#[inline(never)]
pub fn write_first<D: Destinations + Copy>(
    destinations: &D,
    first: usize,
    count: usize,
    lowest: usize,
    out: &mut [i32],
) -> usize
    requires within { first + count ≤ length (D.destinations destinations.now) }
    requires in_limit { length (D.destinations destinations.now) ≤ most_places }
    requires lowest { lowest ≤ most_places }
    ensures written { out.new
        ≡ first_senders (take count (drop first (D.destinations destinations.now))) lowest (length out.old) }
    ensures counted { result ≡ count_by (is_between lowest (lowest + length out.old))
        (take count (drop first (D.destinations destinations.now))) }
{
    // In a copy of its own the walk keeps its pointers in registers, whatever it writes.
    let own = *destinations;
    out.fill(NONE);
    let end = lowest + out.len();
    let mut named = 0;
    let mut left = count;
    while left > 0 {
        left -= 1;
        let (index, takes_part) = own.at(first + left);
        if takes_part {
            if let Some(place) = place_among(end, index) {
                if place >= lowest {
                    out[place - lowest] = left as i32;
                    named += 1;
                }
            }
        }
    }
    named
}
