//! Flat indices, which count from the start of the whole result instead of their segment. A segmented permute's race is a flat
//! one's at these.

ghost use Rattle.std.specs.Prelude.{◌≡◌, ◌+◌, ◌≤◌, ◌++◌, IfOk, length, map, vec_capacity, vec_len};
ghost use Rattle.cvl_base.specs.Limits.{most_places};
ghost use Rattle.segmented_permutes.specs.FlatIndices.{flat_index, flat_indices};
ghost use Rattle.segment_sends.specs.SegmentDestinations.{destinations_in, places_in};

use cvl_base::{Memory, NoResources, place_among};
use permute_walks::Destinations;
use segment_sends::{SegmentDestinations, segment_count};
use std::alloc::Allocator;

/// The flat index of an index that is no place of its segment. It is no place of the whole either.
const OUTSIDE: i32 = -1;

/// The flat index of an index into a segment of `places` places, the first of which is place `start` of the whole.
#[inline]
fn flat_index(start: usize, places: usize, index: &i32) -> i32
    requires { start + places ≤ most_places }
    ensures { result ≡ flat_index start places index.now }
{
    match place_among(places, index) {
        Some(place) => (start + place) as i32,
        None => OUTSIDE,
    }
}

/// Pushes the flat index of each index into such a segment. There must be room for them.
fn push_flat<A: Allocator>(flat: &mut Vec<i32, A>, start: usize, places: usize, segment: &[i32])
    requires room { vec_len flat.old + length segment.now ≤ vec_capacity flat.old }
    requires in_limit { start + places ≤ most_places }
    ensures pushed { flat.new.items ≡ flat.old.items ++ map (flat_index start places) segment.now }
    ensures as_long { vec_len flat.new ≡ vec_len flat.old + length segment.now }
    ensures capacity { vec_capacity flat.new ≡ vec_capacity flat.old }
{
    for index in segment {
        flat.push_reserved(flat_index(start, places, index));
    }
}

/// The flat indices of all segments, which have one index for each destination.
pub(crate) fn flat_indices<D: SegmentDestinations, A: Memory>(
    alloc: A,
    segments: &D,
    index: &[i32],
) -> Result<Vec<i32, A>, NoResources>
    requires cut { D.AreCut segments.now }
    requires as_long { destinations_in (D.segments segments.now) ≡ length index.now }
    requires in_limit { places_in (D.segments segments.now) ≤ most_places }
    ensures are { IfOk result (λ flat. flat.items ≡ flat_indices 0 (D.segments segments.now) index.now) }
    ensures as_long { IfOk result (λ flat. length flat.items ≡ length index.now) }
{
    let mut flat = Vec::with_capacity(alloc, index.len())?;
    let mut rest = index;
    let mut start = 0;
    for s in 0..segment_count(segments) {
        let (places, destinations) = segments.of_segment(s);
        let (segment, others) = rest.split_at(destinations.count());
        push_flat(&mut flat, start, places, segment);
        rest = others;
        start += places;
    }
    Ok(flat)
}
