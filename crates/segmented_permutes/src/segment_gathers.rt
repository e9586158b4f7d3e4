//! The two walks of a back permute by segments into a room. The first checks all indices, so that the second has an element for
//! each. A short segment takes no call, and one with a single index has no loop.

ghost use Rattle.std.specs.Prelude.{◌≡◌, ◌<◌, ◌≤◌, ℕ, length, slice_index, sum, None};
ghost use Rattle.cvl_base.specs.Limits.{most_places};
ghost use Rattle.fresh.specs.Places.{somes};
ghost use Rattle.permute_walks.specs.Indices.{AreInside, elements_at};
ghost use Rattle.permute_walks.specs.Senders.{fault_told};
ghost use Rattle.segmented_permutes.specs.Backs.{IsSegmentedBack, outside_from, values_at};

use cvl_base::Fault;
use fresh::write_over;
use permute_walks::{ElementsAt, check_places_alone};
use segdes::SegLengths;

/// The most indices of a short segment.
const SHORT: usize = 32;

/// The length of the shortest segment.
// Without their signs, which are none, vector code takes several lengths at once.
fn shortest(d: &SegLengths) -> usize
    ensures { (s : ℕ) → s < length d.now → result ≤ slice_index d.now s }
{
    let mut shortest = u32::MAX;
    for length in d.lengths() {
        shortest = length.cast_unsigned().min(shortest);
    }
    shortest as usize
}

/// The first walk: `IndexOutOfRange` at the first place whose index is no place of its segment of the source.
// If each index is a place of the shortest segment, as with segments of one length, no segment is checked alone.
pub(crate) fn check_segments(
    index: &[i32],
    source_d: &SegLengths,
    index_d: &SegLengths,
) -> Result<(), Fault>
    requires total { sum index_d.now ≡ length index.now }
    requires count { length source_d.now ≡ length index_d.now }
    requires in_limit { length index.now ≤ most_places }
    ensures { fault_told result ≡ outside_from 0 source_d.now index_d.now index.now }
{
    if let Ok(()) = check_places_alone(index, shortest(source_d), 0) {
        return Ok(());
    }
    let mut first = 0;
    for s in 0..index_d.count() {
        let last = first + index_d.length(s);
        check_places_alone(&index[first..last], source_d.length(s), first)?;
        first = last;
    }
    Ok(())
}

/// Writes the element at each index of a short segment.
// No index is outside. The compiler does not unroll a loop with an exit, which for a few elements is faster.
#[inline(always)]
fn gather_short_over<T: Copy>(source: &[T], index: &[i32], out: &mut [T])
    requires as_long { length out.old ≡ length index.now }
    requires in_limit { length source.now ≤ most_places }
    requires inside { AreInside (length source.now) index.now }
    ensures { out.new ≡ elements_at source.now index.now }
{
    let places = source.len();
    for (k, i) in index.iter().enumerate() {
        let named = i.cast_unsigned() as usize;
        if named >= places {
            return;
        }
        out[k] = source[named];
    }
}

/// Writes the element at each index of a segment; each is a place of its segment of the source.
#[inline(always)]
fn gather_segment_over<T: Copy>(source: &[T], index: &[i32], out: &mut [T])
    requires as_long { length out.old ≡ length index.now }
    requires in_limit { (length source.now ≤ most_places) × (length index.now ≤ most_places) }
    requires inside { AreInside (length source.now) index.now }
    ensures { out.new ≡ elements_at source.now index.now }
{
    if index.len() == 1 {
        let named = index[0].cast_unsigned() as usize;
        out[0] = source[named];
        return;
    }
    if index.len() <= SHORT {
        return gather_short_over(source, index, out);
    }
    write_over(out, &ElementsAt { source, index });
}

/// The second walk: writes the element at each index; each is a place of its segment of the source.
pub(crate) fn gather_segments_over<T: Copy>(
    source: &[T],
    index: &[i32],
    source_d: &SegLengths,
    index_d: &SegLengths,
    out: &mut [T],
)
    requires fits { IsSegmentedBack source_d.now source.now index_d.now index.now }
    requires as_long { length out.old ≡ length index.now }
    requires in_limit { (length source.now ≤ most_places) × (length index.now ≤ most_places) }
    requires inside { None ≡ outside_from 0 source_d.now index_d.now index.now }
    ensures { out.new ≡ somes (values_at source_d.now source.now index_d.now index.now) }
{
    let (mut first, mut start) = (0, 0);
    for s in 0..index_d.count() {
        let last = first + index_d.length(s);
        let end = start + source_d.length(s);
        gather_segment_over(
            &source[start..end],
            &index[first..last],
            &mut out[first..last],
        );
        first = last;
        start = end;
    }
}
