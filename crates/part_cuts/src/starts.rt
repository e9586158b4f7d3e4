//! Which segment is the first that starts in a part, or behind it.

ghost use Rattle.std.specs.Prelude.{◌≡◌, ◌+◌, ◌<◌, ◌≤◌, ◌^◌, ℕ, List, Ok, Err, IfErr, IfOk, MatchResult, false, length, map, pos};
ghost use Rattle.std.specs.Prelude.{slice_index, sum, unsigned_abs};
ghost use Rattle.std.specs.Int.{is_negative};
ghost use Rattle.cvl_base.specs.declared.fault.FaultNo.TheVariants as no;
ghost use Rattle.cvl_base.specs.Faults.{fault};
ghost use Rattle.part_cuts.specs.Starts.{AreShareStarts, first_start, start_behind, start_of};

use crate::evenly::{even_place, parts_of};
use cvl_base::{Fault, FaultNo};

/// Finds the first segment that starts at `place` or behind it, and where it starts; the number of segments and where all end, if
/// each starts before.
///
/// `lengths` has the lengths of the segments. They are cut evenly into shares, and `places` says where the first segment of each
/// share starts, and at last where all end: so that only the lengths of one share are walked. `LengthMismatch`, without a place,
/// if there is no share; also if a length that is walked is negative, or a segment ends behind all places of 64 bits.
/// Source: Blelloch's starts of segments, as the sums of the lengths before them.
pub fn first_start(lengths: &[i32], places: &[usize], place: usize) -> Result<(usize, usize), Fault>
    ensures found { (segments : List ℕ) → AreShareStarts lengths.now segments places.now
        → result ≡ Ok (first_start place segments, start_of segments (first_start place segments)) }
    ensures fault { IfErr result (λ f. f ≡ fault no.LengthMismatch) }
    ensures no_share { length places.now < 2 → result ≡ Err (fault no.LengthMismatch) }
{
    let shares = parts_of(places.len())?;
    let share = last_share_before(places, place);
    let first = even_place(lengths.len(), shares, share);
    let (_, others) = lengths.split_at(first);
    let (segments, start) = starts_before(others, places[share], place)?;
    Ok((first + segments, start))
}

/// The last share whose first segment starts before a place; the first share, if there is none.
fn last_share_before(places: &[usize], place: usize) -> usize
    requires { 2 ≤ length places.now }
    ensures within { result + 1 < length places.now }
    ensures before { 0 < result → slice_index places.now result < place }
    ensures last { (k : ℕ) → result < k → k + 1 < length places.now → place ≤ slice_index places.now k }
{
    let mut share = places.len() - 2;
    while share > 0 && places[share] >= place {
        share -= 1;
    }
    share
}

/// How many segments with these lengths start before a place, if the first of them starts at `start`, and where the next one
/// starts. `LengthMismatch`, without a place, if a length on the way is negative, or a segment ends behind all places of 64 bits.
#[inline(never)]
fn starts_before(lengths: &[i32], start: usize, place: usize) -> Result<(usize, usize), Fault>
    ensures found { (segments : List ℕ) → lengths.now ≡ map pos segments → start + sum segments < 2 ^ 64
        → result ≡ Ok (start_behind place start segments) }
    ensures within { IfOk result (λ r. r.0 ≤ length lengths.now) }
    ensures fault { IfErr result (λ f. f ≡ fault no.LengthMismatch) }
{
    let mut next = start;
    for (k, length) in lengths.iter().enumerate() {
        if next >= place {
            return Ok((k, next));
        }
        next = end_of(next, length)?;
    }
    Ok((lengths.len(), next))
}

/// Where a segment ends. `LengthMismatch`, without a place, if its length is negative, or that is behind all places of 64 bits.
fn end_of(start: usize, length: &i32) -> Result<usize, Fault>
    ensures { MatchResult result (λ end. (is_negative length.now ≡ false) × (end ≡ start + unsigned_abs length.now))
        (λ f. (f ≡ fault no.LengthMismatch)
        × (is_negative length.now ≡ false → 2 ^ 64 ≤ start + unsigned_abs length.now)) }
{
    let length = *length;
    if length < 0 || length as usize > usize::MAX - start {
        return Err(Fault::new(FaultNo::LengthMismatch));
    }
    Ok(start + length as usize)
}
