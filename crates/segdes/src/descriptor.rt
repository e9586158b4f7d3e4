//! Descriptors.

ghost use Rattle.std.specs.Prelude.{◌≡◌, ℕ, ◌+◌, ◌<◌, ◌≤◌, pos, length, map, sum, slice_index, unsigned_abs};
ghost use Rattle.std.specs.Prelude.{Err, IfOk, MatchResult};
ghost use Rattle.cvl_base.specs.Descriptors.{AreLengthsWithin, descriptor_of, descriptor_within};
ghost use Rattle.cvl_base.specs.Gives.{Gives};
ghost use Rattle.cvl_base.specs.Limits.{most_elements, most_places};
ghost use Rattle.cvl_base.specs.Nests.{nest};
ghost use Rattle.segdes.specs.Shares.{IsShareEnd};
ghost use Rattle.segdes.specs.Starts.{start_of};

use crate::check::check_lengths;
use crate::seg_lengths::SegLengths;
use crate::starts::starts_and_total;
use cvl_base::limits::{MOST_ELEMENTS, MOST_PLACES};
use cvl_base::{Fault, Lengths, Memory, NoResources, Refused};
use sharing::share_of_first;
use std::alloc::Allocator;
use std::marker::Model;

/// The descriptor of a segmented vector, with the list of its segments' lengths as model: at most 2,147,483,647 segments with at
/// most 2,147,483,647 elements.
///
/// It keeps the start of each segment and the total, so that it answers each question in constant time and without memory.
/// Segments and elements are counted by `usize`, since they index slices.
#[derive(Drop)]
#[derive_where(Debug; A)]
pub struct SegDes<A: Allocator> {
    lengths: Vec<i32, A>,
    starts: Vec<u32, A>,
    total: u32,
}

impl<A: Allocator> Model for SegDes<A> {
    ghost use Rattle.std.specs.Prelude.{ℕ, List, map, unsigned_abs};
    ghost use Rattle.cvl_base.specs.Descriptors.{AreLengthsWithin};
    ghost use Rattle.cvl_base.specs.Limits.{most_places};
    ghost use Rattle.segdes.specs.Starts.{IsKept};

    ghost Value = { List ℕ };

    ghost view = { λ d. map unsigned_abs d.lengths.items };

    ghost invariant = { λ d. AreLengthsWithin most_places d.lengths.items
        × IsKept (map unsigned_abs d.lengths.items) d.starts.items d.total };
}

impl<A: Memory> SegDes<A> {
    /// The descriptor of segments with these lengths (CVL's make-descriptor): `NegativeLength` at the first negative length;
    /// `TooLong`, without a place, if none is and the total is above 4,194,304, the limit of scripts and sessions.
    ///
    /// There are at most 4,194,304 lengths, as of elements in their vectors.
    pub fn from_lengths(alloc: A, lengths: &[i32]) -> Result<SegDes<A>, Refused>
        requires { length lengths.now ≤ most_elements }
        ensures values { Gives (λ d. d) result (descriptor_of lengths.now) }
        ensures few { IfOk result (λ d. length d ≤ most_elements) }
        ensures in_limit { IfOk result (λ d. sum d ≤ most_elements) }
    {
        SegDes::from_lengths_within(alloc, lengths, MOST_ELEMENTS)
    }

    /// The same for a caller in another language, whose segments have up to 2,147,483,647 elements together.
    pub fn from_long_lengths(alloc: A, lengths: &[i32]) -> Result<SegDes<A>, Refused>
        requires { length lengths.now ≤ most_places }
        ensures { Gives (λ d. d) result (descriptor_within most_places lengths.now) }
    {
        SegDes::from_lengths_within(alloc, lengths, MOST_PLACES)
    }

    /// The descriptor of segments with these lengths, which have at most `most` elements together.
    fn from_lengths_within(alloc: A, lengths: &[i32], most: usize) -> Result<SegDes<A>, Refused>
        requires limit { most ≤ most_places }
        requires few { length lengths.now ≤ most }
        ensures values { Gives (λ d. d) result (descriptor_within most lengths.now) }
        ensures few { IfOk result (λ d. length d ≤ most) }
        ensures in_limit { IfOk result (λ d. sum d ≤ most) }
    {
        check_lengths(lengths, most)?;
        Ok(SegDes::keeping(alloc, Vec::from_slice(alloc, lengths)?)?)
    }

    /// The descriptor of segments with the lengths of a descriptor value, which are copied.
    #[tactic(auto, using(cvl_base::proofs::Descriptors::abs_pos))]
    pub fn of(alloc: A, lengths: &Lengths<A>) -> Result<SegDes<A>, NoResources>
        ensures { IfOk result (λ d. d ≡ lengths.now) }
    {
        let lengths = Lengths::from_vec(Vec::from_slice(alloc, lengths.as_slice())?);
        SegDes::new(alloc, lengths)
    }

    /// The descriptor of segments with lengths stored elsewhere, which are copied.
    #[tactic(auto, using(cvl_base::proofs::Descriptors::abs_pos))]
    pub fn of_lengths(alloc: A, d: &SegLengths) -> Result<SegDes<A>, NoResources>
        ensures { IfOk result (λ kept. kept ≡ d.now) }
    {
        SegDes::keeping(alloc, Vec::from_slice(alloc, d.lengths())?)
    }
}

impl<A: Allocator> SegDes<A> {
    /// The descriptor of segments with the lengths of a descriptor value, which it keeps.
    #[tactic(auto, using(cvl_base::proofs::Descriptors::abs_pos))]
    pub fn new(alloc: A, lengths: Lengths<A>) -> Result<SegDes<A>, NoResources>
        ensures { IfOk result (λ d. d ≡ lengths) }
    {
        SegDes::keeping(alloc, lengths.into_vec())
    }

    /// The descriptor of segments with these lengths, which it keeps.
    fn keeping(alloc: A, lengths: Vec<i32, A>) -> Result<SegDes<A>, NoResources>
        requires { AreLengthsWithin most_places lengths.items }
        ensures { IfOk result (λ d. d ≡ map unsigned_abs lengths.items) }
    {
        let (starts, total) = starts_and_total(alloc, &lengths)?;
        Ok(SegDes {
            lengths,
            starts,
            total,
        })
    }

    /// How many segments there are, empty ones included.
    pub fn count(&self) -> usize
        ensures value { result ≡ length self.now }
        ensures in_limit { result ≤ most_places }
    {
        self.lengths.len()
    }

    /// How many elements segment `s` has, which is below `count`.
    #[tactic(auto, using(crate::proofs::Sums::length_at))]
    pub fn length(&self, s: usize) -> usize
        requires { s < length self.now }
        ensures { result ≡ slice_index self.now s }
    {
        self.lengths()[s] as usize
    }

    /// Where segment `s`, which is below `count`, starts: the sum of the lengths before it. All of the segment lies
    /// within the total.
    pub fn start(&self, s: usize) -> usize
        requires { s < length self.now }
        ensures value { result ≡ start_of self.now s }
        ensures within { result + slice_index self.now s ≤ sum self.now }
    {
        self.starts[s] as usize
    }

    /// Where segment `s` starts, the sum of the lengths before it; the total if there is no such segment.
    #[tactic(auto, using(std::proofs::lemmas::List::take_all))]
    pub fn start_or_total(&self, s: usize) -> usize
        ensures { result ≡ start_of self.now s }
    {
        if s < self.count() {
            self.start(s)
        } else {
            self.total()
        }
    }

    /// How many segments start before a place.
    pub fn starts_before(&self, place: usize) -> usize
        ensures in_count { result ≤ length self.now }
        ensures before { (s : ℕ) → s < result → start_of self.now s < place }
        ensures others { (s : ℕ) → result ≤ s → s < length self.now → place ≤ start_of self.now s }
    {
        self.starts
            .as_slice()
            .partition_point(|start| (*start as usize) < place)
    }

    /// Before which of the segments from `begin` up to before `end` the share of the first `few` of `threads` threads ends: each
    /// thread has about as many places, and no segment is cut.
    pub fn share_end(&self, begin: usize, end: usize, few: usize, threads: usize) -> usize
        requires some { 1 ≤ threads }
        requires no_more { few ≤ threads }
        requires order { begin ≤ end }
        requires within { end ≤ length self.now }
        ensures { IsShareEnd self.now begin end few threads result }
    {
        // its contract bounds the starts
        let _total = self.total();
        let first = self.start_or_total(begin);
        let last = self.start_or_total(end);
        let place = first + share_of_first(few, threads, last.saturating_sub(first));
        self.starts_before(place).max(begin).min(end)
    }

    /// The number of elements of all segments.
    pub fn total(&self) -> usize
        ensures value { result ≡ sum self.now }
        ensures in_limit { result ≤ most_places }
    {
        self.total as usize
    }

    /// The lengths alone, for a walk over whole segments in turn.
    #[tactic(auto, using(cvl_base::proofs::Descriptors::abs_pos))]
    pub fn as_lengths(&self) -> SegLengths<'_>
        ensures { result ≡ self.now }
    {
        SegLengths::kept(self.lengths.as_slice(), self.total)
    }

    /// The lengths of the segments.
    pub fn lengths(&self) -> &[i32]
        ensures value { result.now ≡ map pos self.now }
        ensures lengths { AreLengthsWithin most_places result.now }
        ensures total { sum self.now ≤ most_places }
    {
        self.lengths.as_slice()
    }

    /// A copy of the lengths of the segments as a descriptor value, if they are within its limit.
    #[tactic(auto, using(cvl_base::proofs::Descriptors::abs_pos))]
    pub fn to_lengths(&self, alloc: A) -> Result<Lengths<A>, NoResources>
        requires few { length self.now ≤ most_elements }
        requires in_limit { sum self.now ≤ most_elements }
        ensures { IfOk result (λ lengths. lengths ≡ self.now) }
    {
        let lengths = Vec::from_slice(alloc, self.lengths())?;
        Ok(Lengths::from_vec(lengths))
    }
}

/// Checks that the vector has as many elements as the segments together, else `LengthMismatch`, without a place.
pub fn check_total<T, A: Allocator>(a: &[T], d: &SegDes<A>) -> Result<(), Fault>
    ensures agrees { MatchResult result (λ _. sum d.now ≡ length a.now)
        (λ f. nest d.now a.now ≡ Err f) }
    ensures in_limit { IfOk result (λ _. length a.now ≤ most_places) }
{
    d.as_lengths().check_total(a)
}
