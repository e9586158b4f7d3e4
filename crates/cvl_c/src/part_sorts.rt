//! What is made once between two steps of a sort in parts: only `bindings/c/steps.c` calls these. What a part does in a step is
//! in `sort_steps`.

ghost use Rattle.std.specs.Prelude.{◌≡◌, ◌-◌, length, MatchResult};
ghost use Rattle.c_calls.specs.Calls.{in_limit};
ghost use Rattle.c_calls.specs.Told.{Told};
ghost use Rattle.sort_parts.specs.Cuts.{AreNearest, IsCutBetween, fits_parts};
ghost use Rattle.sort_parts.specs.Passes.{passes_by};

use c_calls::status::{CvlStatus, told_one};
use sort_parts::{cut_pieces, digit_passes};

/// The passes of a sort, of which `all` has the bits that are set in all keys of each part, and `any` those that are set in any:
/// bit p is set if keys differ in the digit of pass p, and bit 0 also if all keys are equal.
#[unsafe(no_mangle)]
pub extern "C" fn cvl_proved_digit_passes(all: &[i32], any: &[i32], passes: &mut usize) -> CvlStatus
    ensures { Told (passes_by all.now any.now) result passes.old passes.new }
{
    told_one(digit_passes(all, any), passes)
}

/// The pieces of a pass that each part gathers, cut at the ends that are nearest to the shares, of which `from` has where each
/// begins; and how many elements the pieces before have.
#[unsafe(no_mangle)]
pub extern "C" fn cvl_proved_cut_pieces(
    from: &[usize],
    ends: &[u32],
    pieces: &mut [usize],
    places: &mut [usize],
) -> CvlStatus
    ensures answer { Told
        (in_limit ends.now (fits_parts (length from.now) (length ends.now) (length pieces.old) (length places.old)))
        result tt tt }
    ensures written { MatchResult
        (in_limit ends.now (fits_parts (length from.now) (length ends.now) (length pieces.old) (length places.old)))
        (λ _. IsCutBetween (length from.now - 1) ends.now pieces.new places.new × AreNearest from.now ends.now pieces.new)
        (λ _. (pieces.new ≡ pieces.old) × (places.new ≡ places.old)) }
{
    told_one(cut_pieces(from, ends, pieces, places), &mut ())
}
