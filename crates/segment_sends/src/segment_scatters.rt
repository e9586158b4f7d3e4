//! The two walks of a simple permute by segments into a room. The first marks the place that each index names, segment by segment
//! in the same bytes, and those of a short segment in a word. The second writes each element to its index.

ghost use Rattle.std.specs.Prelude.{◌≡◌, ◌≤◌, ◌↔◌, filter_map, length, slice_get, slice_index, sum, ℕ, ◌<◌, IfOk, IsTrue, None};
ghost use Rattle.cvl_base.specs.Limits.{most_places};
ghost use Rattle.segment_sends.specs.SegmentDestinations.{fault_from, all_in_segments, senders_from};

use crate::one_segment::{is_segment_permutation, scatter_segment_over};
use crate::segment_destinations::longest;
use cvl_base::{Memory, NoResources};
use segdes::SegLengths;

/// Whether the indices of each segment are a permutation of its places. There are as many marks as the longest segment has
/// places.
fn are_permutations_by(marks: &mut [bool], index: &[i32], d: &SegLengths) -> bool
    requires total { sum d.now ≡ length index.now }
    requires wide { (s : ℕ) → s < length d.now → slice_index d.now s ≤ length marks.old }
    requires in_limit { length index.now ≤ most_places }
    ensures { IsTrue result ↔ None ≡ fault_from 0 (all_in_segments d.now d.now index.now) }
{
    let mut first = 0;
    for s in 0..d.count() {
        let places = d.length(s);
        let (some_marks, _) = marks.split_at_mut(places);
        if !is_segment_permutation(some_marks, &index[first..first + places]) {
            return false;
        }
        first += places;
    }
    true
}

/// The first walk: whether the indices of each segment are a permutation of its places, so that none is out of range or repeated.
/// `NoResources` if there is no memory for a byte for each place of the longest segment.
pub fn are_permutations<A: Memory>(
    alloc: A,
    index: &[i32],
    d: &SegLengths,
) -> Result<bool, NoResources>
    requires total { sum d.now ≡ length index.now }
    requires in_limit { length index.now ≤ most_places }
    ensures { IfOk result (λ are. IsTrue are ↔ None ≡ fault_from 0 (all_in_segments d.now d.now index.now)) }
{
    let mut marks = vec![in alloc; false; longest(d)]?;
    Ok(are_permutations_by(&mut marks, index, d))
}

/// The second walk: writes the element of each place to its index; the indices of each segment are a permutation of its places.
pub fn scatter_segments_over<T: Copy>(source: &[T], index: &[i32], d: &SegLengths, out: &mut [T])
    requires total { sum d.now ≡ length index.now }
    requires as_long { (length source.now ≡ length index.now) × (length out.old ≡ length index.now) }
    requires in_limit { length index.now ≤ most_places }
    requires apart { None ≡ fault_from 0 (all_in_segments d.now d.now index.now) }
    ensures { out.new ≡ filter_map (slice_get source.now) (senders_from 0 (all_in_segments d.now d.now index.now)) }
{
    let mut first = 0;
    for s in 0..d.count() {
        let last = first + d.length(s);
        scatter_segment_over(
            &source[first..last],
            &index[first..last],
            &mut out[first..last],
        );
        first = last;
    }
}
