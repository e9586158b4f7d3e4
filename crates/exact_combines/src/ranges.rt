//! Sums of 64 bits of one range of the room, by its owner, who reads all indices.

ghost use Rattle.std.specs.Prelude.{◌≡◌, ◌+◌, ◌+ℤ◌, ◌≤◌, length};
ghost use Rattle.std.specs.List.{AllPass, zip};
ghost use Rattle.cvl_base.specs.Limits.{most_places};
ghost use Rattle.combining_permutes.specs.CombiningPermutes.{combined, named_between};
ghost use Rattle.long_sums.specs.LongSums.{may_grow};

use crate::readings::{Widened, know_longs};
use combining_permutes::combine_range;
use long_sums::LongSum;
use scan_walks::know_numbers;

/// Adds to each sum of a range of the places, which begins at place `lowest`, the integers that are sent to it. Tells how many
/// indices name a place of the range.
///
/// There is an index for each integer, and there are at most 2,147,483,647. The range ends at that place at the latest, and its
/// sums are from -2^62 to 2^62 - 1. Source: Blelloch's combining send, over whole numbers.
pub fn exact_sums_range(source: &[i32], index: &[i32], lowest: usize, out: &mut [i64]) -> usize
    requires as_long { length source.now ≡ length index.now }
    requires within { lowest + length out.old ≤ most_places }
    requires in_limit { length index.now ≤ most_places }
    requires growing { AllPass may_grow out.old }
    ensures joined { out.new ≡ combined ◌+ℤ◌ (zip index.now source.now) lowest out.old }
    ensures counted { result ≡ named_between index.now lowest (length out.old) }
{
    know_numbers(source);
    know_longs(out);
    combine_range::<LongSum, i32, Widened>(source, index, lowest, out)
}
