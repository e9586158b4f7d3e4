//! Replace: a vector with another element at one place, or at one place of each segment.

ghost use Rattle.std.specs.Prelude.{◌≡◌, IfOk, length, vec_len};
ghost use Rattle.cvl_base.specs.Extracts.{replace_of};
ghost use Rattle.cvl_base.specs.Gives.{Gives};
ghost use Rattle.cvl_base.specs.SegmentedCalls.{seg_replace_of};

use crate::checks::place_in_segment;
use cvl_base::{Fault, FaultNo, Memory, Refused, check_agree, place_among};
use segdes::SegLengths;

/// The vector with `value` at the index, a place counted from 0: `rep_vuz` and its like.
///
/// The result is as long as the vector. `IndexOutOfRange`, at 0, if the vector has no such place; a negative index does not count
/// from the end. Source: CVL's replace.
pub fn replace<T: Copy, A: Memory>(
    alloc: A,
    vector: &[T],
    index: i32,
    value: T,
) -> Result<Vec<T, A>, Refused>
    ensures values { Gives (λ v. v.items) result (replace_of vector.now index value) }
    ensures as_long { IfOk result (λ v. vec_len v ≡ length vector.now) }
{
    let Some(place) = place_among(vector.len(), &index) else {
        return Err(Fault::at(FaultNo::IndexOutOfRange, 0).into());
    };
    let mut replaced = Vec::from_slice(alloc, vector)?;
    replaced[place] = value;
    Ok(replaced)
}

/// The vector with each segment's value at the segment's index, counted from the segment's start: `rep_vez` and its like.
///
/// The segments' total is the number of elements, and there are one index and one value for each segment, else `LengthMismatch`,
/// without a place. The result is as long as the vector. `IndexOutOfRange` at the number of the first segment without such a
/// place; empty ones have none. Source: CVL's segmented replace.
pub fn seg_replace<T: Copy, A: Memory>(
    alloc: A,
    vector: &[T],
    index: &[i32],
    values: &[T],
    d: &SegLengths,
) -> Result<Vec<T, A>, Refused>
    ensures values { Gives (λ v. v.items) result
        (seg_replace_of vector.now index.now values.now d.now) }
    ensures as_long { IfOk result (λ v. vec_len v ≡ length vector.now) }
{
    d.check_total(vector)?;
    check_agree(d.count(), index.len())?;
    check_agree(d.count(), values.len())?;
    let mut replaced = Vec::from_slice(alloc, vector)?;
    let mut start = 0;
    for s in 0..d.count() {
        let (length, value) = (d.length(s), values[s]);
        let place = place_in_segment(s, start, length, &index[s])?;
        replaced[place] = value;
        start += length;
    }
    Ok(replaced)
}
