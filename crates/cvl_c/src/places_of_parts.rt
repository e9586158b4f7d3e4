//! Where the parts of a call stand in its other vectors: only `bindings/c/steps.c` calls these.

ghost use Rattle.c_calls.specs.Told.{RoomTold};
ghost use Rattle.part_cuts.specs.Pairs.{added_places_of, remaining_places_of};
ghost use Rattle.part_cuts.specs.Places.{exact_count_places_of, exact_places_of};

use c_calls::status::{CvlStatus, told_over};
use part_cuts::{added_places, exact_count_places, exact_places, remaining_places};

/// Where each part begins in a vector of `len` elements, and at last where all parts end; `sizes` has how many of its elements
/// each part has.
#[unsafe(no_mangle)]
pub extern "C" fn cvl_proved_exact_places(
    sizes: &[usize],
    len: usize,
    places: &mut [usize],
) -> CvlStatus
    ensures { RoomTold (exact_places_of sizes.now len) result places.old places.new }
{
    told_over::<usize>(exact_places(sizes, len, places))
}

/// The same for parts that have as many of its elements as flags that are true.
#[unsafe(no_mangle)]
pub extern "C" fn cvl_proved_exact_count_places(
    counts: &[i32],
    len: usize,
    places: &mut [usize],
) -> CvlStatus
    ensures { RoomTold (exact_count_places_of counts.now len) result places.old places.new }
{
    told_over::<usize>(exact_count_places(counts, len, places))
}

/// Where each part goes on in a vector of `len` elements that has those which another vector does not take: `from` says how many
/// elements of both stand before the part, and `taken` how many of these are the other vector's.
#[unsafe(no_mangle)]
pub extern "C" fn cvl_proved_remaining_places(
    from: &[usize],
    taken: &[usize],
    len: usize,
    rest: &mut [usize],
) -> CvlStatus
    ensures { RoomTold (remaining_places_of from.now taken.now len) result rest.old rest.new }
{
    told_over::<usize>(remaining_places(from, taken, len, rest))
}

/// Where each part goes on in a vector of `len` elements that has those of two others.
#[unsafe(no_mangle)]
pub extern "C" fn cvl_proved_added_places(
    starts: &[usize],
    others: &[usize],
    len: usize,
    places: &mut [usize],
) -> CvlStatus
    ensures { RoomTold (added_places_of starts.now others.now len) result places.old places.new }
{
    told_over::<usize>(added_places(starts, others, len, places))
}
