//! A permute of a short vector in one walk, which writes each element to its place and marks the place, a byte a place. There are
//! as many marks as indices exactly if none is outside or repeated; else what was written means nothing.

ghost use Rattle.std.specs.Prelude.{◌≡◌, ◌≤◌, false, length, replicate, vec_len, IsTrue, None};
ghost use Rattle.cvl_base.specs.Limits.{most_places};
ghost use Rattle.cvl_base.specs.Permutes.{all_destinations, first_fault, wrongs};
ghost use Rattle.permute_walks.specs.OneWalk.{IfMade};
ghost use Rattle.permute_walks.specs.Senders.{last_senders, senders_of, sent_marks, written_over};

use crate::leaps::jumps;
use cvl_base::limits::MOST_PLACES;
use cvl_base::{Memory, NoResources, true_count};
use fresh::{Writer, write_alone};

/// Writes each element to its index over what stands there, and marks the place; false if an index names no place, and then
/// neither means anything. If several elements go to one place, the last one stays.
// Without its sign an index below 0 is beyond the longest vector, so that one comparison is enough. Nothing that stands there is
// read: a store alone is faster than a load, a comparison and a store.
#[inline(never)]
fn send_and_mark<T: Copy>(source: &[T], index: &[i32], out: &mut [T], marks: &mut [bool]) -> bool
    requires sourced { length source.now ≡ length index.now }
    requires as_long { length marks.old ≡ length out.old }
    requires unmarked { marks.old ≡ replicate (length marks.old) false }
    requires in_limit { (length index.now ≤ most_places) × (length out.old ≤ most_places) }
    ensures written { IsTrue result
        → out.new ≡ written_over source.now (last_senders 0 (all_destinations index.now) 0 (length out.old)) out.old }
    ensures marked { IsTrue result → marks.new ≡ sent_marks (last_senders 0 (all_destinations index.now) 0 (length out.old)) }
{
    let places = out.len();
    for (k, i) in index.iter().enumerate() {
        let named = i.cast_unsigned() as usize;
        if named >= places {
            return false;
        }
        marks[named] = true;
        out[named] = source[k];
    }
    true
}

/// What a permute of so many places leaves of what stands there before, on the calling thread: the element of each place's
/// sender, or what `before` writes where it has none. None if a place is bad, if there are more places than a vector may have, or
/// if the index of a long permute jumps from place to place: the caller then goes another way. `NoResources` if there is no
/// memory for the places, or for a byte for each.
// If the index jumps, a walk that writes to two places at once waits for both, and finding the senders is faster.
pub fn permuted_at_once<T: Copy, A: Memory, W: Writer<T>>(
    alloc: A,
    source: &[T],
    index: &[i32],
    places: usize,
    before: &W,
) -> Result<Option<Vec<T, A>>, NoResources>
    requires sourced { length source.now ≡ length index.now }
    requires few { length index.now ≤ most_places }
    requires whole { places ≡ length (W.whole before.now) }
    ensures written { IfMade result (λ v.
        v.items ≡ written_over source.now (senders_of 0 (all_destinations index.now) places) (W.whole before.now)) }
    ensures as_long { IfMade result (λ v. vec_len v ≡ places) }
    ensures right { IfMade result (λ v. None ≡ first_fault 0 (wrongs places (all_destinations index.now))) }
{
    if places > MOST_PLACES || jumps(index) {
        return Ok(None);
    }
    let mut out = write_alone(alloc, before, places)?;
    let mut marks = vec![in alloc; false; places]?;
    if send_and_mark(source, index, &mut out, &mut marks) && true_count(&marks) == index.len() {
        Ok(Some(out))
    } else {
        Ok(None)
    }
}
