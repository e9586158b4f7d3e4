//! The walk that joins by the owner of one range of the room, beside others who have the other ranges: each reads all indices. It
//! lists the elements of a block that are sent to its range, and then joins them. Each of the two loops has no branch on where an
//! element is sent, which a processor guesses wrongly where the indices are in no order. Where they are in order most blocks have
//! no such element: behind one of these a block is counted first, which takes less time than a list.

ghost use Rattle.std.specs.Prelude.{◌≡◌, ◌+◌, ◌<◌, ◌≤◌, pos, Some, drop, length, map, slice_get, slice_index_or, take};
ghost use Rattle.std.specs.Prelude.{true};
ghost use Rattle.std.specs.List.{AllPass, zip};
ghost use Rattle.cvl_base.specs.Limits.{most_places};
ghost use Rattle.combining_permutes.specs.CombiningPermutes.{combined, named_between};
ghost use Rattle.combining_permutes.specs.Walks.{those_between};
ghost use Rattle.permute_walks.specs.Senders.{is_between};

use cvl_base::Monoid;
use cvl_base::monoid::know_laws;
use scan_walks::Reading;

/// So many elements are listed at a time; their list stays in the nearest memory of a processor.
const BLOCK: usize = 1024;

/// Whether an index names one of so many places from `lowest` on.
// Without its sign an index below 0, or one below `lowest`, is beyond the longest vector, so that one comparison is enough.
#[inline]
pub(crate) fn names_between(index: &i32, lowest: u32, places: u32) -> bool
    requires within { lowest + places ≤ most_places }
    ensures { result ≡ is_between lowest (lowest + places) (Some index.now) }
{
    index.cast_unsigned().wrapping_sub(lowest) < places
}

/// The place that index `k` names, which is one of so many from `lowest` on, counted from that, and the element beside it.
#[inline]
fn sent_from<X: Copy>(
    source: &[X],
    index: &[i32],
    k: usize,
    lowest: usize,
    places: usize,
) -> (usize, X)
    requires as_long { length source.now ≡ length index.now }
    requires inside { k < length index.now }
    requires within { lowest + places ≤ most_places }
    requires named { is_between lowest (lowest + places) (Some (slice_index_or index.now k (pos 0))) ≡ true }
    ensures place { slice_index_or index.now k (pos 0) ≡ pos (lowest + result.0) }
    ensures inside { result.0 < places }
    ensures element { slice_get source.now k ≡ Some result.1 }
{
    (index[k].cast_unsigned() as usize - lowest, source[k])
}

/// How many of so many indices, from the one at `first` on, name one of so many places from `lowest` on.
// Vector code takes several at once.
#[inline(never)]
fn count_block(index: &[i32], first: usize, many: usize, lowest: u32, places: u32) -> u32
    requires block { first + many ≤ length index.now }
    requires within { lowest + places ≤ most_places }
    requires in_limit { length index.now ≤ most_places }
    ensures { result ≡ length (those_between index.now lowest (lowest + places) first many) }
{
    let mut count = 0;
    for k in 0..many {
        if names_between(&index[first + k], lowest, places) {
            count += 1;
        }
    }
    count
}

/// Lists which indices of a block name one of so many places from `lowest` on, and tells how many they are. The block begins with
/// the index at `first`, and has as many as the list has room for. Where they may be none they are counted first.
// Each is written behind the list, and stays where it counts, so that the machine code has no branch on it.
#[inline(never)]
fn list_block(
    index: &[i32],
    first: usize,
    may_be_none: bool,
    lowest: u32,
    places: u32,
    list: &mut [u32],
) -> usize
    requires block { first + length list.old ≤ length index.now }
    requires within { lowest + places ≤ most_places }
    requires in_limit { length index.now ≤ most_places }
    ensures listed { take result list.new ≡ those_between index.now lowest (lowest + places) first (length list.old) }
    ensures in_length { result ≤ length list.new }
{
    if may_be_none && count_block(index, first, list.len(), lowest, places) == 0 {
        return 0;
    }
    let mut count = 0;
    for k in 0..list.len() {
        list[count] = (first + k) as u32;
        if names_between(&index[first + k], lowest, places) {
            count += 1;
        }
    }
    count
}

/// `combine_range` for the elements of one block, which begins with the one at `first` and has as many as the list has room for.
/// Tells how many are sent to the range.
#[inline(never)]
fn join_block<M: Monoid, X: Copy, E: Reading<X, M::Item>>(
    source: &[X],
    index: &[i32],
    first: usize,
    may_be_none: bool,
    list: &mut [u32],
    lowest: usize,
    out: &mut [M::Item],
) -> usize
    requires as_long { length source.now ≡ length index.now }
    requires block { first + length list.old ≤ length index.now }
    requires within { lowest + length out.old ≤ most_places }
    requires in_limit { length index.now ≤ most_places }
    requires elements { AllPass (λ x. M.is_item (E.item x)) source.now }
    requires items { AllPass M.is_item out.old }
    ensures joined { combined M.join (zip (drop first index.now) (drop first (map E.item source.now))) lowest out.old
        ≡ combined M.join (zip (drop (first + length list.old) index.now)
        (drop (first + length list.old) (map E.item source.now))) lowest out.new }
    ensures items { AllPass M.is_item out.new }
    ensures counted { result
        ≡ length (those_between index.now lowest (lowest + length out.old) first (length list.old)) }
{
    know_laws::<M>();
    let places = out.len();
    let count = list_block(
        index,
        first,
        may_be_none,
        lowest as u32,
        places as u32,
        list,
    );
    let (own, _) = list.split_at(count);
    for listed in own {
        let k = *listed as usize;
        let (place, element) = sent_from(source, index, k, lowest, places);
        out[place] = M::join(out[place], E::item(element));
    }
    count
}

/// Joins each element, as it is read, with what stands at the place that its index names: what stands there on the left, and
/// several elements in their order. The room is a range of the places, which begins at place `lowest`; an element that is sent
/// to another place is passed by. Tells how many indices name a place of the range.
///
/// What stands in the room and what the elements are read as must be items of the monoid. There is an index for each element,
/// and there are at most 2,147,483,647. The range ends at that place at the latest. Source: Blelloch's combining send.
pub fn combine_range<M: Monoid, X: Copy, E: Reading<X, M::Item>>(
    source: &[X],
    index: &[i32],
    lowest: usize,
    out: &mut [M::Item],
) -> usize
    requires as_long { length source.now ≡ length index.now }
    requires within { lowest + length out.old ≤ most_places }
    requires in_limit { length index.now ≤ most_places }
    requires elements { AllPass (λ x. M.is_item (E.item x)) source.now }
    requires items { AllPass M.is_item out.old }
    ensures joined { out.new ≡ combined M.join (zip index.now (map E.item source.now)) lowest out.old }
    ensures items { AllPass M.is_item out.new }
    ensures counted { result ≡ named_between index.now lowest (length out.old) }
{
    let mut list = [0; BLOCK];
    let mut first = 0;
    let mut named = 0;
    let mut listed = 1;
    while first < index.len() {
        let many = BLOCK.min(index.len() - first);
        listed = join_block::<M, X, E>(
            source,
            index,
            first,
            listed == 0,
            &mut list[..many],
            lowest,
            out,
        );
        named += listed;
        first += many;
    }
    named
}
