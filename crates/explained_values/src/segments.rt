//! The segment that has a call's fault.

ghost use Rattle.std.specs.Prelude.{◌≡◌, ◌≤◌, length, map, slice_index, sum, unsigned_abs};
ghost use Rattle.cvl_base.specs.Limits.{most_elements};
ghost use Rattle.explained_values.specs.Segments.{part_words, places_of, segment_at, segment_of, start_at, start_of};

use crate::arguments::{Argument, spelled_at};
use cvl_base::{Cut, Form, Memory, NoResources, Op};
use explained_calls::{Number, Words, said};

/// What the place of a fault counts.
#[derive(Clone, Copy)]
pub enum Places {
    /// The elements of a whole vector.
    Whole,
    /// Segments.
    OfSegments,
    /// The elements of a vector that the descriptor at this place among the arguments cuts.
    CutBy(usize),
}

/// What the place of a call's fault counts.
pub(crate) fn places_of(op: Op) -> Places
    ensures { result ≡ places_of op }
{
    match op {
        Op::Permute(Form::Simple, Cut::Segmented, _) => Places::CutBy(2),
        Op::Permute(_, Cut::Segmented, _) => Places::CutBy(3),
        Op::CheckedScan(Cut::Segmented) => Places::CutBy(1),
        Op::CheckedReduce(Cut::Segmented)
        | Op::Extract(Cut::Segmented, _)
        | Op::Replace(Cut::Segmented, _) => Places::OfSegments,
        _ => Places::Whole,
    }
}

/// The sum of the magnitudes.
pub(crate) fn total_of(lengths: &[i32]) -> usize
    requires { length lengths.now ≤ most_elements }
    ensures { result ≡ sum (map unsigned_abs lengths.now) }
{
    lengths
        .iter()
        .map(|length| length.unsigned_abs() as usize)
        .sum()
}

/// How many elements a segment has.
pub(crate) fn length_at(lengths: &[i32], segment: usize) -> usize
    ensures { result ≡ slice_index (map unsigned_abs lengths.now) segment }
{
    match lengths.get(segment) {
        Some(length) => length.unsigned_abs() as usize,
        None => 0,
    }
}

/// The segment of a place in the whole vector.
fn segment_of(lengths: &[i32], place: usize) -> usize
    ensures { result ≡ segment_of (map unsigned_abs lengths.now) place }
{
    let mut left = place;
    for (segment, length) in lengths.iter().enumerate() {
        let count = length.unsigned_abs() as usize;
        if left < count {
            return segment;
        }
        left -= count;
    }
    lengths.len()
}

/// Where a segment starts in the whole vector.
#[tactic(auto, using(crate::proofs::SegmentStarts::starts, crate::proofs::SegmentStarts::ends))]
pub(crate) fn start_of(lengths: &[i32], segment: usize) -> usize
    requires { length lengths.now ≤ most_elements }
    ensures { result ≡ start_of (map unsigned_abs lengths.now) segment }
{
    if segment < lengths.len() {
        total_of(&lengths[..segment])
    } else {
        total_of(lengths)
    }
}

/// The segment of a fault, if the call takes its vectors by segments.
pub(crate) fn segment_at<A: Memory>(
    places: Places,
    arguments: &[Argument<'_, A>],
    place: usize,
) -> Option<usize>
    ensures { result ≡ segment_at places arguments.now place }
{
    match places {
        Places::Whole => None,
        Places::OfSegments => Some(place),
        Places::CutBy(descriptor) => Some(segment_of(
            spelled_at(arguments, descriptor).lengths(),
            place,
        )),
    }
}

/// Where the segment of a fault starts, or 0 if nothing is cut.
pub(crate) fn start_at<A: Memory>(
    places: Places,
    arguments: &[Argument<'_, A>],
    place: usize,
) -> usize
    ensures { result ≡ start_at places arguments.now place }
{
    match places {
        Places::CutBy(descriptor) => {
            let lengths = spelled_at(arguments, descriptor).lengths();
            start_of(lengths, segment_of(lengths, place))
        }
        _ => 0,
    }
}

/// The name of a vector, or of a segment of it: `segment 1 of v`.
#[derive(Drop)]
pub(crate) struct Part<'a> {
    pub(crate) segment: Option<usize>,
    pub(crate) vector: &'a [u8],
}

impl<'a> Words for Part<'a> {
    ghost words = { λ part. part_words part.segment part.vector.now };

    fn put<A: Memory>(&self, text: &mut Vec<u8, A>) -> Result<(), NoResources> {
        match self.segment {
            None => self.vector.put(text),
            Some(segment) => { said![b"segment ", Number(segment), b" of ", self.vector].put(text) }
        }
    }
}
