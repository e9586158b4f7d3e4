//! Where a permute by segments sends the places of each segment.

ghost use Rattle.std.specs.Prelude.{◌≡◌, ◌<◌, ◌≤◌, ℕ, ℤ, List, [], length, map, Option, slice_index};
ghost use Rattle.std.specs.Prelude.{slice_index_or, take};
ghost use Rattle.segment_sends.specs.SegmentDestinations.{destinations_in, places_in};
ghost use Rattle.segment_sends.specs.Shares.{AreWithin};

use cvl_base::{Memory, true_count};
use permute_walks::{AllDestinations, Destinations, FlaggedDestinations};
use segdes::{SegDes, SegLengths};
use std::alloc::Allocator;

/// The destinations of a permute by segments: for each segment where its places are sent, and among how many.
///
/// Its meaning is how many places each segment of the result has, with the destinations of the segment, and whether the vectors
/// are as long as the segments together.
pub trait SegmentDestinations {
    /// The destinations of a segment.
    type OfSegment: Destinations + Send + Sync + Drop;

    /// The allocator of the descriptor.
    type A: Allocator + Send + Sync;

    ghost segments: { Self → List (ℕ × List (Option ℤ)) };

    ghost AreCut: { Self → Type 0 };

    /// The descriptor of the segments of the index.
    fn descriptor(&self) -> &SegDes<Self::A>
        requires { AreCut self.now }
        ensures { result.now ≡ map (λ p. length p.1) (segments self.now) };

    /// How many places segment `s` of the result has, and the segment's destinations.
    fn of_segment(&self, s: usize) -> (usize, Self::OfSegment)
        requires cut { AreCut self.now }
        requires within { s < length (segments self.now) }
        ensures { slice_index_or (segments self.now) s (0, []) ≡ (result.0, Self.OfSegment.destinations result.1) };

    /// How many places the segments of the result before segment `s` have; all if there is no such segment.
    fn places_before(&self, s: usize) -> usize
        requires { AreCut self.now }
        ensures { result ≡ places_in (take s (segments self.now)) };

    /// A number of places that no segment of the result exceeds.
    fn widest(&self) -> usize
        requires { AreCut self.now }
        ensures { AreWithin result (segments self.now) };
}

/// The number of segments.
#[tactic(auto, using(crate::proofs::Through::mapped))]
pub fn segment_count<D: SegmentDestinations>(segments: &D) -> usize
    requires { D.AreCut segments.now }
    ensures { result ≡ length (D.segments segments.now) }
{
    segments.descriptor().count()
}

/// How many destinations the segments before segment `s` have; all if there is no such segment.
#[tactic(auto, using(crate::proofs::Through::mapped))]
pub(crate) fn destinations_before<D: SegmentDestinations>(segments: &D, s: usize) -> usize
    requires { D.AreCut segments.now }
    ensures { result ≡ destinations_in (take s (D.segments segments.now)) }
{
    segments.descriptor().start_or_total(s)
}

/// The length of the longest segment.
// Without their signs, which are none, vector code takes several lengths at once.
pub(crate) fn longest(d: &SegLengths) -> usize
    ensures { (s : ℕ) → s < length d.now → slice_index d.now s ≤ result }
{
    let mut longest = 0;
    for length in d.lengths() {
        longest = length.cast_unsigned().max(longest);
    }
    longest as usize
}

/// Each place takes part, and the result has segments of its own lengths.
#[derive(Drop)]
pub struct AllInSegments<'a, A: Allocator> {
    /// For each place the one that it is sent to, counted from the start of its segment.
    pub index: &'a [i32],
    /// The segments of the index.
    pub d: &'a SegDes<A>,
    /// The segments of the result, as many.
    pub result_d: &'a SegDes<A>,
}

impl<'a, A: Memory> SegmentDestinations for AllInSegments<'a, A> {
    ghost use Rattle.std.specs.Prelude.{◌≡◌, length, sum};
    ghost use Rattle.segment_sends.specs.SegmentDestinations.{all_in_segments};

    type OfSegment = AllDestinations<'a>;

    type A = A;

    ghost segments = { λ p. all_in_segments p.d.now p.result_d.now p.index.now };

    ghost AreCut = { λ p. (sum p.d.now ≡ length p.index.now) × (length p.d.now ≡ length p.result_d.now) };

    #[tactic(auto, using(crate::proofs::Through::each_long))]
    fn descriptor(&self) -> &SegDes<A> {
        self.d
    }

    #[tactic(auto, using(crate::proofs::Through::segment_counts))]
    fn of_segment(&self, s: usize) -> (usize, AllDestinations<'a>) {
        let first = self.d.start(s);
        let index = &self.index[first..first + self.d.length(s)];
        (self.result_d.length(s), AllDestinations { index })
    }

    #[tactic(auto, using(crate::proofs::Through::places_ahead))]
    fn places_before(&self, s: usize) -> usize {
        self.result_d.start_or_total(s)
    }

    fn widest(&self) -> usize {
        longest(&self.result_d.as_lengths())
    }
}

/// The places whose flag is true take part, and a segment of the result has as many places.
#[derive(Drop)]
pub struct FlaggedInSegments<'a, A: Allocator> {
    /// For each place whose flag is true the one that it is sent to, counted from the start of its segment.
    pub index: &'a [i32],
    /// Which places take part: as many flags as indices.
    pub flags: &'a [bool],
    /// The segments of the index and the flags.
    pub d: &'a SegDes<A>,
}

impl<'a, A: Memory> SegmentDestinations for FlaggedInSegments<'a, A> {
    ghost use Rattle.std.specs.Prelude.{◌≡◌, ◌≤◌, length, sum};
    ghost use Rattle.cvl_base.specs.Limits.{most_places};
    ghost use Rattle.segment_sends.specs.SegmentDestinations.{flagged_in_segments};

    type OfSegment = FlaggedDestinations<'a>;

    type A = A;

    ghost segments = { λ p. flagged_in_segments p.d.now p.index.now p.flags.now };

    ghost AreCut = { λ p. (sum p.d.now ≡ length p.index.now) × (sum p.d.now ≡ length p.flags.now)
        × (length p.flags.now ≤ most_places) };

    #[tactic(auto, using(crate::proofs::Through::flagged_long))]
    fn descriptor(&self) -> &SegDes<A> {
        self.d
    }

    #[tactic(auto, using(crate::proofs::Through::segment_counts))]
    fn of_segment(&self, s: usize) -> (usize, FlaggedDestinations<'a>) {
        let first = self.d.start(s);
        let last = first + self.d.length(s);
        let index = &self.index[first..last];
        let flags = &self.flags[first..last];
        (true_count(flags), FlaggedDestinations { index, flags })
    }

    #[tactic(auto, using(crate::proofs::Through::start_within, crate::proofs::Through::flagged_places_ahead))]
    fn places_before(&self, s: usize) -> usize {
        let (flags, _) = self.flags.split_at(self.d.start_or_total(s));
        true_count(flags)
    }

    // No segment has more true flags than flags.
    fn widest(&self) -> usize {
        longest(&self.d.as_lengths())
    }
}
