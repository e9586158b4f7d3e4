//! Descriptors that are only lengths, stored elsewhere.

ghost use Rattle.std.specs.Prelude.{◌≡◌, ◌<◌, ◌≤◌, IfOk, MatchResult, Err, length, map, pos, slice_index, sum, unsigned_abs, Ok};
ghost use Rattle.cvl_base.specs.Descriptors.{AreLengthsWithin, descriptor_within};
ghost use Rattle.cvl_base.specs.Limits.{most_places};
ghost use Rattle.cvl_base.specs.Nests.{nest};

use crate::check::check_lengths;
use cvl_base::limits::MOST_PLACES;
use cvl_base::{Fault, check_agree};
use std::marker::Model;

/// The lengths of segments, in place: a descriptor that takes no memory. Its model is the list of the lengths.
///
/// Use it to walk over whole segments in turn. Only [`SegDes`](crate::SegDes) knows where a segment starts.
#[derive(Drop)]
pub struct SegLengths<'a> {
    lengths: &'a [i32],
    total: u32,
}

impl<'a> Model for SegLengths<'a> {
    ghost use Rattle.std.specs.Prelude.{◌≡◌, ℕ, List, map, sum, unsigned_abs};
    ghost use Rattle.cvl_base.specs.Descriptors.{AreLengthsWithin};
    ghost use Rattle.cvl_base.specs.Limits.{most_places};

    ghost Value = { List ℕ };

    ghost view = { λ d. map unsigned_abs d.lengths.now };

    ghost invariant = { λ d. AreLengthsWithin most_places d.lengths.now × (d.total ≡ sum (map unsigned_abs d.lengths.now)) };
}

impl<'a> SegLengths<'a> {
    /// The descriptor of segments with these lengths, which are checked in one pass: `NegativeLength` at the first negative one;
    /// `TooLong`, without a place, if none is and the total is above 2,147,483,647.
    ///
    /// There are at most 2,147,483,647 lengths.
    pub fn of(lengths: &'a [i32]) -> Result<SegLengths<'a>, Fault>
        requires { length lengths.now ≤ most_places }
        ensures { MatchResult result (λ d. descriptor_within most_places lengths.now ≡ Ok d)
            (λ f. descriptor_within most_places lengths.now ≡ Err f) }
    {
        let total = check_lengths(lengths, MOST_PLACES)?;
        Ok(SegLengths { lengths, total })
    }

    /// The descriptor of segments with these lengths, which were checked before, and their total.
    pub(crate) fn kept(lengths: &'a [i32], total: u32) -> SegLengths<'a>
        requires lengths { AreLengthsWithin most_places lengths.now }
        requires total { total ≡ sum (map unsigned_abs lengths.now) }
        ensures { result ≡ map unsigned_abs lengths.now }
    {
        SegLengths { lengths, total }
    }

    /// How many segments there are, empty ones included.
    pub fn count(&self) -> usize
        ensures value { result ≡ length self.now }
        ensures in_limit { result ≤ most_places }
    {
        self.lengths.len()
    }

    /// How many elements segment `s` has, which is below `count`.
    #[tactic(auto, using(crate::proofs::Sums::length_at))]
    pub fn length(&self, s: usize) -> usize
        requires { s < length self.now }
        ensures { result ≡ slice_index self.now s }
    {
        self.lengths()[s] as usize
    }

    /// The number of elements of all segments.
    pub fn total(&self) -> usize
        ensures value { result ≡ sum self.now }
        ensures in_limit { result ≤ most_places }
    {
        self.total as usize
    }

    /// The lengths of the segments.
    pub fn lengths(&self) -> &[i32]
        ensures value { result.now ≡ map pos self.now }
        ensures read { map unsigned_abs result.now ≡ self.now }
        ensures lengths { AreLengthsWithin most_places result.now }
        ensures total { sum self.now ≤ most_places }
    {
        self.lengths
    }

    /// Checks that the vector has as many elements as the segments together, else `LengthMismatch`, without a place.
    pub fn check_total<T>(&self, a: &[T]) -> Result<(), Fault>
        ensures agrees { MatchResult result (λ _. sum self.now ≡ length a.now)
            (λ f. nest self.now a.now ≡ Err f) }
        ensures in_limit { IfOk result (λ _. length a.now ≤ most_places) }
    {
        check_agree(self.total(), a.len())
    }
}
