//! The walk over one range of the room by an operator of the table, and the counts of one range.

ghost use Rattle.std.specs.Prelude.{◌≡◌, ◌+◌, ◌≤◌, length};
ghost use Rattle.std.specs.List.{AllPass, zip};
ghost use Rattle.cvl_base.specs.Limits.{most_places};
ghost use Rattle.cvl_base.specs.Scans.{bool_join_of, int_join_of};
ghost use Rattle.combining_permutes.specs.CombiningPermutes.{combined, named_between, place_counts};

use crate::counts::One;
use crate::ranges::combine_range;
use cvl_base::monoids::Add;
use cvl_base::{BoolBinary, IntMonoid, Monoid, by_bool_binary, by_int_monoid};
use scan_walks::{Itself, know_numbers};

/// `combine_range` of items, which are read as themselves.
fn items_range<M: Monoid>(
    source: &[M::Item],
    index: &[i32],
    lowest: usize,
    out: &mut [M::Item],
) -> usize
    requires as_long { length source.now ≡ length index.now }
    requires within { lowest + length out.old ≤ most_places }
    requires in_limit { length index.now ≤ most_places }
    requires elements { AllPass M.is_item source.now }
    requires items { AllPass M.is_item out.old }
    ensures joined { out.new ≡ combined M.join (zip index.now source.now) lowest out.old }
    ensures counted { result ≡ named_between index.now lowest (length out.old) }
{
    combine_range::<M, M::Item, Itself>(source, index, lowest, out)
}

/// Combines those integers that are sent to a range of the places, which begins at place `lowest`, by one of the seven operators:
/// at each place of the room what stood there, joined with all that are sent there, in their order. Tells how many indices name a
/// place of the range.
///
/// There is an index for each integer, and there are at most 2,147,483,647. The range ends at that place at the latest.
pub fn int_combine_range(
    op: IntMonoid,
    source: &[i32],
    index: &[i32],
    lowest: usize,
    out: &mut [i32],
) -> usize
    requires as_long { length source.now ≡ length index.now }
    requires within { lowest + length out.old ≤ most_places }
    requires in_limit { length index.now ≤ most_places }
    ensures joined { out.new ≡ combined (int_join_of op) (zip index.now source.now) lowest out.old }
    ensures counted { result ≡ named_between index.now lowest (length out.old) }
{
    know_numbers(source);
    know_numbers(out);
    by_int_monoid!(op, items_range::<_>(source, index, lowest, out))
}

/// The same of booleans, by and, or, or exclusive or.
pub fn bool_combine_range(
    op: BoolBinary,
    source: &[bool],
    index: &[i32],
    lowest: usize,
    out: &mut [bool],
) -> usize
    requires as_long { length source.now ≡ length index.now }
    requires within { lowest + length out.old ≤ most_places }
    requires in_limit { length index.now ≤ most_places }
    ensures joined { out.new ≡ combined (bool_join_of op) (zip index.now source.now) lowest out.old }
    ensures counted { result ≡ named_between index.now lowest (length out.old) }
{
    by_bool_binary!(op, items_range::<_>(source, index, lowest, out))
}

/// Writes how many indices name each place of a range, which begins at place `lowest`, whatever stood there. Tells how many name
/// a place of the range.
///
/// There are at most 2,147,483,647 indices, and the range ends at that place at the latest.
pub fn counts_range(index: &[i32], lowest: usize, out: &mut [i32]) -> usize
    requires within { lowest + length out.old ≤ most_places }
    requires in_limit { length index.now ≤ most_places }
    ensures written { out.new ≡ place_counts index.now lowest (length out.old) }
    ensures counted { result ≡ named_between index.now lowest (length out.old) }
{
    out.fill(0);
    know_numbers(out);
    combine_range::<Add, i32, One>(index, index, lowest, out)
}
