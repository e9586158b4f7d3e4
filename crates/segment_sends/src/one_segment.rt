//! The two walks of a simple permute into a room, over one segment. A short segment takes no call: the marks of its places are
//! the bits of a word, and a segment of one place has no loop.

ghost use Rattle.std.specs.Prelude.{◌≡◌, ◌≤◌, ◌↔◌, filter_map, length, slice_get, IsTrue, None};
ghost use Rattle.cvl_base.specs.Limits.{most_places};
ghost use Rattle.cvl_base.specs.Permutes.{all_destinations, first_fault, wrongs};
ghost use Rattle.permute_walks.specs.Senders.{senders_of};

use permute_walks::{is_permutation_by, scatter_over};

/// The most places of a short segment, as many as a word has bits.
const SHORT: usize = 32;

/// Whether the indices of a short segment are a permutation of its places.
// Without its sign an index below 0 is beyond the longest vector, so that one comparison is enough.
#[inline(always)]
fn is_short_permutation(index: &[i32]) -> bool
    requires { length index.now ≤ 32 }
    ensures { IsTrue result ↔ None ≡ first_fault 0 (wrongs (length index.now) (all_destinations index.now)) }
{
    let places = index.len();
    let mut marks: u32 = 0;
    for i in index {
        let named = i.cast_unsigned() as usize;
        if named >= places {
            return false;
        }
        marks |= 1 << named;
    }
    marks.count_ones() as usize == places
}

/// The first walk: whether the indices of a segment are a permutation of its places. There is a mark for each index; what the
/// marks hold does not matter.
#[inline(always)]
pub(crate) fn is_segment_permutation(marks: &mut [bool], index: &[i32]) -> bool
    requires as_long { length marks.old ≡ length index.now }
    requires in_limit { length index.now ≤ most_places }
    ensures { IsTrue result ↔ None ≡ first_fault 0 (wrongs (length index.now) (all_destinations index.now)) }
{
    if index.len() == 1 {
        return index[0] == 0;
    }
    if index.len() <= SHORT {
        return is_short_permutation(index);
    }
    is_permutation_by(marks, index)
}

/// Writes the element of each place of a short segment to its index.
// No index is outside. The compiler does not unroll a loop with an exit, which for a few elements is faster.
#[inline(always)]
fn scatter_short_over<T: Copy>(source: &[T], index: &[i32], out: &mut [T])
    requires as_long { (length source.now ≡ length index.now) × (length out.old ≡ length index.now) }
    requires in_limit { length index.now ≤ most_places }
    requires apart { None ≡ first_fault 0 (wrongs (length index.now) (all_destinations index.now)) }
    ensures { out.new ≡ filter_map (slice_get source.now) (senders_of 0 (all_destinations index.now) (length index.now)) }
{
    let places = out.len();
    for (k, i) in index.iter().enumerate() {
        let named = i.cast_unsigned() as usize;
        if named >= places {
            return;
        }
        out[named] = source[k];
    }
}

/// The second walk: writes the element of each place of a segment to its index; the indices are a permutation of its places.
#[inline(always)]
pub(crate) fn scatter_segment_over<T: Copy>(source: &[T], index: &[i32], out: &mut [T])
    requires as_long { (length source.now ≡ length index.now) × (length out.old ≡ length index.now) }
    requires in_limit { length index.now ≤ most_places }
    requires apart { None ≡ first_fault 0 (wrongs (length index.now) (all_destinations index.now)) }
    ensures { out.new ≡ filter_map (slice_get source.now) (senders_of 0 (all_destinations index.now) (length index.now)) }
{
    if index.len() == 1 {
        out[0] = source[0];
        return;
    }
    if index.len() <= SHORT {
        return scatter_short_over(source, index, out);
    }
    scatter_over(source, index, out);
}
