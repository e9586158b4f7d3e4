//! The length that a count asks for, and the place that a segment's index names.

ghost use Rattle.std.specs.Prelude.{◌≡◌, ℕ, ◌+◌, ◌<◌, ◌≤◌, pos, IfOk, MatchResult};
ghost use Rattle.cvl_base.specs.Distributes.{length_within};
ghost use Rattle.cvl_base.specs.Faults.{fault_at};
ghost use Rattle.cvl_base.specs.Limits.{most_places};
ghost use Rattle.cvl_base.specs.declared.fault.FaultNo.TheVariants as no;

use cvl_base::{Fault, FaultNo, place_among};

/// The length that a count asks for: `NegativeLength` if it is negative, `TooLong` if it is above `most`.
pub(crate) fn length_for(count: &i32, most: usize) -> Result<usize, Fault>
    ensures value { result ≡ length_within most count.now }
    ensures in_limit { IfOk result (λ length. length ≤ most) }
{
    if *count < 0 {
        return Err(Fault::new(FaultNo::NegativeLength));
    }
    let length = *count as usize;
    if length > most {
        return Err(Fault::new(FaultNo::TooLong));
    }
    Ok(length)
}

/// The place in the vector that the index of segment `s` names, if the segment has `length` elements from `start` on;
/// `IndexOutOfRange` at the segment's number if it has no such place.
pub(crate) fn place_in_segment(
    s: usize,
    start: usize,
    length: usize,
    index: &i32,
) -> Result<usize, Fault>
    requires few { s < most_places }
    requires in_limit { start + length ≤ most_places }
    ensures within { IfOk result (λ place. place < start + length) }
    ensures named { MatchResult result
        (λ place. (k : ℕ) × (k < length) × (index.now ≡ pos k) × (place ≡ start + k))
        (λ f. (f ≡ fault_at no.IndexOutOfRange s) × ((k : ℕ) → index.now ≡ pos k → length ≤ k)) }
{
    match place_among(length, index) {
        Some(place) => Ok(start + place),
        None => Err(Fault::at(FaultNo::IndexOutOfRange, s as u32)),
    }
}
