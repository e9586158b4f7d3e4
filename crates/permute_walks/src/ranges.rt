//! The walk of a permute by the owner of one range of the result: it reads all indices, and writes and marks the places of the
//! range to which one sends. It lists the places of a block of indices that are sent there, and then writes their elements.
//! Neither loop has a branch on where a place is sent, which a processor guesses wrongly if the indices are in no order. If they
//! are in order, most blocks have no such place: after one of these a block is counted first, which is faster than a list. After
//! a block all of whose places are sent there, as always if the range is the whole result and no place is bad, each place is
//! written in turn: the branch is then guessed right, and there is no list.

ghost use Rattle.std.specs.Prelude.{◌≡◌, ◌+◌, ◌<◌, ◌≤◌, pos, List, true, length, replicate, slice_get, slice_index_or, take};
ghost use Rattle.std.specs.Prelude.{Some, None};
ghost use Rattle.cvl_base.specs.Limits.{most_places};
ghost use Rattle.cvl_base.specs.Permutes.{destination_if};
ghost use Rattle.permute_walks.specs.Marks.{mark_words, words_for};
ghost use Rattle.permute_walks.specs.Senders.{IsWrittenTo, is_between, last_senders, places_between, sent_marks, written_over};

use crate::marks::{hold_first, mark, mark_held, put_back};
use sent_places::Destinations;

/// How many places are listed at a time; their list stays in the nearest cache of a processor.
const BLOCK: usize = 1024;

/// Whether a place takes part and is sent to one of `places` places from `lowest` on.
// Without its sign an index below 0, or one below `lowest`, is beyond the longest vector, so that one comparison is enough.
#[inline]
fn is_sent_between(index: &i32, takes_part: bool, lowest: u32, places: u32) -> bool
    requires within { lowest + places ≤ most_places }
    ensures { result ≡ is_between lowest (lowest + places) (destination_if index.now takes_part) }
{
    takes_part & (index.cast_unsigned().wrapping_sub(lowest) < places)
}

/// How many places of a block are sent to one of `places` places from `lowest` on. It begins at place `first`, and has `many`
/// places.
// Vector code takes several at once.
#[inline(never)]
fn count_block<D: Destinations>(
    destinations: &D,
    first: usize,
    many: usize,
    lowest: u32,
    places: u32,
) -> u32
    requires block { first + many ≤ length (D.destinations destinations.now) }
    requires within { lowest + places ≤ most_places }
    requires in_limit { length (D.destinations destinations.now) ≤ most_places }
    ensures { result ≡ length (places_between (D.destinations destinations.now) lowest (lowest + places) first many) }
{
    let mut count = 0;
    for k in 0..many {
        let (index, takes_part) = destinations.at(first + k);
        if is_sent_between(index, takes_part, lowest, places) {
            count += 1;
        }
    }
    count
}

/// Lists the places of a block that are sent to one of `places` places from `lowest` on, and returns their number. The block
/// begins at place `first`, and has as many places as the list has room for. If there may be none, they are counted first.
// Each place is written after the list, and stays if it counts, so that the machine code has no branch on it.
#[inline(never)]
fn list_block<D: Destinations>(
    destinations: &D,
    first: usize,
    may_be_none: bool,
    lowest: u32,
    places: u32,
    list: &mut [u32],
) -> usize
    requires block { first + length list.old ≤ length (D.destinations destinations.now) }
    requires within { lowest + places ≤ most_places }
    requires in_limit { length (D.destinations destinations.now) ≤ most_places }
    ensures listed { take result list.new ≡ places_between (D.destinations destinations.now) lowest (lowest + places) first
        (length list.old) }
    ensures in_length { result ≤ length list.new }
{
    if may_be_none && count_block(destinations, first, list.len(), lowest, places) == 0 {
        return 0;
    }
    let mut count = 0;
    for k in 0..list.len() {
        let (index, takes_part) = destinations.at(first + k);
        list[count] = (first + k) as u32;
        if is_sent_between(index, takes_part, lowest, places) {
            count += 1;
        }
    }
    count
}

/// The place of a range to which place `k` is sent, if it is one, counted from the range's first, and the element.
#[inline]
fn sent_from<T: Copy, D: Destinations>(
    source: &[T],
    destinations: &D,
    k: usize,
    lowest: usize,
    places: usize,
) -> (usize, T)
    requires sourced { length source.now ≡ length (D.destinations destinations.now) }
    requires inside { k < length (D.destinations destinations.now) }
    requires within { lowest + places ≤ most_places }
    requires sent { is_between lowest (lowest + places) (slice_index_or (D.destinations destinations.now) k None) ≡ true }
    ensures place { slice_index_or (D.destinations destinations.now) k None ≡ Some (pos (lowest + result.0)) }
    ensures inside { result.0 < places }
    ensures element { slice_get source.now k ≡ Some result.1 }
{
    let (index, _) = destinations.at(k);
    (index.cast_unsigned() as usize - lowest, source[k])
}

/// `write_range` for the places of one block, which begins at place `first` and has as many places as the list has room for.
/// Returns how many are sent to the range.
#[inline(never)]
fn write_listed<T: Copy, D: Destinations>(
    source: &[T],
    destinations: &D,
    first: usize,
    may_be_none: bool,
    list: &mut [u32],
    lowest: usize,
    out: &mut [T],
    marks: &mut [u32],
) -> usize
    requires sourced { length source.now ≡ length (D.destinations destinations.now) }
    requires block { first + length list.old ≤ length (D.destinations destinations.now) }
    requires as_long { length marks.old ≡ words_for (length out.old) }
    requires within { lowest + length out.old ≤ most_places }
    requires in_limit { length (D.destinations destinations.now) ≤ most_places }
    ensures written { (old : List T) → length old ≡ length out.old
        → IsWrittenTo source.now (D.destinations destinations.now) lowest old first out.old marks.old
        → IsWrittenTo source.now (D.destinations destinations.now) lowest old (first + length list.old) out.new marks.new }
{
    let places = out.len();
    let count = list_block(
        destinations,
        first,
        may_be_none,
        lowest as u32,
        places as u32,
        list,
    );
    let (own, _) = list.split_at(count);
    for place in own {
        let k = *place as usize;
        let (destination, element) = sent_from(source, destinations, k, lowest, places);
        out[destination] = element;
        mark(marks, destination);
    }
    count
}

/// `write_listed` without a list, for a block of `many` places, most of which are sent to the range.
// It has a branch on where each place is sent.
#[inline(never)]
fn write_in_turn<T: Copy, D: Destinations>(
    source: &[T],
    destinations: &D,
    first: usize,
    many: usize,
    lowest: usize,
    out: &mut [T],
    marks: &mut [u32],
) -> usize
    requires sourced { length source.now ≡ length (D.destinations destinations.now) }
    requires block { first + many ≤ length (D.destinations destinations.now) }
    requires as_long { length marks.old ≡ words_for (length out.old) }
    requires within { lowest + length out.old ≤ most_places }
    requires in_limit { length (D.destinations destinations.now) ≤ most_places }
    ensures written { (old : List T) → length old ≡ length out.old
        → IsWrittenTo source.now (D.destinations destinations.now) lowest old first out.old marks.old
        → IsWrittenTo source.now (D.destinations destinations.now) lowest old (first + many) out.new marks.new }
{
    let places = out.len();
    let mut held = hold_first(marks);
    let mut count = 0;
    for k in 0..many {
        let (index, takes_part) = destinations.at(first + k);
        if is_sent_between(index, takes_part, lowest as u32, places as u32) {
            let (destination, element) = sent_from(source, destinations, first + k, lowest, places);
            out[destination] = element;
            held = mark_held(marks, held, destination);
            count += 1;
        }
    }
    put_back(marks, held);
    count
}

/// Writes the element of each place that takes part at its index, and marks it there, if that is a place of one range of the
/// result. The range begins at place `lowest`, and at first no place of it is marked. Of several elements that are sent to one
/// place the last stays.
pub fn write_range<T: Copy, D: Destinations>(
    source: &[T],
    destinations: &D,
    lowest: usize,
    out: &mut [T],
    marks: &mut [u32],
)
    requires sourced { length source.now ≡ length (D.destinations destinations.now) }
    requires unmarked { marks.old ≡ replicate (words_for (length out.old)) 0 }
    requires within { lowest + length out.old ≤ most_places }
    requires in_limit { length (D.destinations destinations.now) ≤ most_places }
    ensures written { out.new ≡ written_over source.now
        (last_senders 0 (D.destinations destinations.now) lowest (length out.old)) out.old }
    ensures marked { marks.new ≡ mark_words (sent_marks
        (last_senders 0 (D.destinations destinations.now) lowest (length out.old))) }
{
    let mut list = [0; BLOCK];
    let places = destinations.count();
    let mut first = 0;
    let mut written = 1;
    while first < places {
        let many = BLOCK.min(places - first);
        written = if written == BLOCK {
            write_in_turn(source, destinations, first, many, lowest, out, marks)
        } else {
            write_listed(
                source,
                destinations,
                first,
                written == 0,
                &mut list[..many],
                lowest,
                out,
                marks,
            )
        };
        first += many;
    }
}
