//! Where the parts of a call are cut: only `bindings/c/cut.c` calls these.

ghost use Rattle.std.specs.Prelude.{◌≡◌, ◌≢◌, ℕ, List, Ok, Err, length};
ghost use Rattle.cvl_base.specs.declared.fault.FaultNo.TheVariants as no;
ghost use Rattle.cvl_base.specs.Faults.{fault};
ghost use Rattle.c_calls.specs.Told.{Told, done};
ghost use Rattle.part_cuts.specs.Evenly.{even_places_of};
ghost use Rattle.part_cuts.specs.Starts.{AreShareStarts, first_start, start_of};
ghost use Rattle.part_cuts.specs.White.{IsCutAtWhite, white_places_of};

use c_calls::status::{CvlStatus, told_one, told_over};
use part_cuts::{even_places, first_start, white_places};

/// Where each part begins of a vector of `len` elements that is cut evenly, and at last `len`.
#[unsafe(no_mangle)]
pub extern "C" fn cvl_proved_even_places(len: usize, places: &mut [usize]) -> CvlStatus
    ensures { Told (even_places_of (length places.old) len) result places.old places.new }
{
    told_over::<usize>(even_places(len, places))
}

/// The number of the first segment that starts at `place` or behind it, and where it starts. `lengths` are cut evenly into
/// shares, and `places` says where the first segment of each share starts, and at last where all segments end.
#[unsafe(no_mangle)]
pub extern "C" fn cvl_proved_first_start(
    lengths: &[i32],
    places: &[usize],
    place: usize,
    segment: &mut usize,
    start: &mut usize,
) -> CvlStatus
    ensures found { (segments : List ℕ) → AreShareStarts lengths.now segments places.now
        → Told {X = ℕ × ℕ} (Ok (first_start place segments, start_of segments (first_start place segments)))
        result (segment.old, start.old) (segment.new, start.new) }
    ensures fault { result ≢ done
        → Told {X = ℕ × ℕ} (Err (fault no.LengthMismatch)) result (segment.old, start.old) (segment.new, start.new) }
{
    let mut found = (*segment, *start);
    let status = told_one(first_start(lengths, places, place), &mut found);
    *segment = found.0;
    *start = found.1;
    status
}

/// Where each part of a text begins, and at last where the text ends: the first part at 0, and each other at white space, or at
/// the text's end.
#[unsafe(no_mangle)]
pub extern "C" fn cvl_proved_white_places(text: &[u8], places: &mut [usize]) -> CvlStatus
    ensures places { Told (white_places_of (length places.old) text.now) result places.old places.new }
    ensures cut { result ≡ done → IsCutAtWhite text.now places.new }
{
    told_over::<usize>(white_places(text, places))
}
