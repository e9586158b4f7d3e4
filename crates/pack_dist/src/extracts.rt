//! Extract: the element at one place, or at one place of each segment.

ghost use Rattle.std.specs.Prelude.{◌≡◌, IfOk, length, vec_len};
ghost use Rattle.cvl_base.specs.Extracts.{extract_of};
ghost use Rattle.cvl_base.specs.Gives.{Gives};
ghost use Rattle.cvl_base.specs.SegmentedCalls.{seg_extract_of};

use crate::checks::place_in_segment;
use cvl_base::{Fault, FaultNo, Memory, Refused, check_agree, place_among};
use segdes::SegLengths;

/// The element at the index, a place counted from 0: `ext_vuz` and its like.
///
/// `IndexOutOfRange`, at 0, if the vector has no such place; a negative index does not count from the end. Source: CVL's extract.
pub fn extract<T: Copy>(vector: &[T], index: i32) -> Result<T, Fault>
    ensures { result ≡ extract_of vector.now index }
{
    let Some(place) = place_among(vector.len(), &index) else {
        return Err(Fault::at(FaultNo::IndexOutOfRange, 0));
    };
    Ok(vector[place])
}

/// The element at each segment's index, counted from the segment's start: `ext_vez` and its like.
///
/// The segments' total is the number of elements, and there is one index for each segment, else `LengthMismatch`, without a
/// place. The result has one element for each segment. `IndexOutOfRange` at the number of the first segment without such a place;
/// empty ones have none. Source: CVL's segmented extract.
pub fn seg_extract<T: Copy, A: Memory>(
    alloc: A,
    vector: &[T],
    index: &[i32],
    d: &SegLengths,
) -> Result<Vec<T, A>, Refused>
    ensures values { Gives (λ v. v.items) result (seg_extract_of vector.now index.now d.now) }
    ensures as_long { IfOk result (λ v. vec_len v ≡ length d.now) }
{
    d.check_total(vector)?;
    check_agree(d.count(), index.len())?;
    let mut elements = Vec::with_capacity(alloc, d.count())?;
    let mut start = 0;
    for s in 0..d.count() {
        let length = d.length(s);
        let place = place_in_segment(s, start, length, &index[s])?;
        elements.push_reserved(vector[place]);
        start += length;
    }
    Ok(elements)
}
