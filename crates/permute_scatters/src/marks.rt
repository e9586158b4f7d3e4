//! The first walk: a bit for each place of the result that an index names. There are as many as indices exactly if none is
//! outside or repeated.

ghost use Rattle.std.specs.Prelude.{◌≡◌, ◌<◌, ◌≤◌, ◌/◌, ◌↔◌, Bool, List, None, length, replicate, set, true, IfOk, IsTrue};
ghost use Rattle.cvl_base.specs.Limits.{most_places};
ghost use Rattle.cvl_base.specs.Permutes.{all_destinations, first_fault, wrongs};
ghost use Rattle.permute_walks.specs.Marks.{mark_words, words_for};
ghost use Rattle.permute_walks.specs.Senders.{last_senders, sent_marks};

use crate::leaps::jumps;
use cvl_base::limits::MOST_PLACES;
use cvl_base::{Memory, NoResources};
use permute_walks::marks::WORD_BITS;
use permute_walks::{count_marks, words_for};

/// Marks a place.
#[inline]
#[tactic(auto, using(permute_walks::proofs::MarkWords::marked_one))]
fn mark_place(marks: &mut [u32], place: usize)
    requires within { place / 32 < length marks.old }
    ensures { (flags : List Bool) → place < length flags → marks.old ≡ mark_words flags
        → marks.new ≡ mark_words (set flags place true) }
{
    marks[place / WORD_BITS] |= 1 << (place % WORD_BITS);
}

/// Marks the place that each index names; false if an index names none, and then the marks mean nothing.
// Without its sign an index below 0 is beyond the longest vector, so that one comparison is enough.
// Inlined into a large function the loop keeps its pointers on the stack.
#[inline(never)]
fn mark_each(index: &[i32], places: usize, marks: &mut [u32]) -> bool
    requires unmarked { marks.old ≡ replicate (words_for places) 0 }
    requires in_limit { (length index.now ≤ most_places) × (places ≤ most_places) }
    ensures marked { IsTrue result → marks.new ≡ mark_words (sent_marks (last_senders 0 (all_destinations index.now) 0 places)) }
    ensures inside { None ≡ first_fault 0 (wrongs places (all_destinations index.now)) → IsTrue result }
{
    for i in index {
        let named = i.cast_unsigned() as usize;
        if named >= places {
            return false;
        }
        mark_place(marks, named);
    }
    true
}

/// Whether each index names one of `places` places, and no two the same. At first no place is marked.
fn are_apart(index: &[i32], places: usize, marks: &mut [u32]) -> bool
    requires unmarked { marks.old ≡ replicate (words_for places) 0 }
    requires in_limit { (length index.now ≤ most_places) × (places ≤ most_places) }
    ensures { IsTrue result ↔ None ≡ first_fault 0 (wrongs places (all_destinations index.now)) }
{
    mark_each(index, places, marks) && count_marks(marks) == index.len()
}

/// Whether the index of a long permute jumps from place to place, and each index names one of `places` places, no two the same,
/// so that a scatter makes the permute. Places are marked only if the index jumps. `false` promises nothing: the caller then goes
/// a slower way to the same result. `NoResources` if there is no memory for a bit a place.
pub fn is_scattered<A: Memory>(alloc: A, index: &[i32], places: usize) -> Result<bool, NoResources>
    requires in_limit { length index.now ≤ most_places }
    ensures { IfOk result (λ is. IsTrue is
        → (places ≤ most_places) × (None ≡ first_fault 0 (wrongs places (all_destinations index.now)))) }
{
    if places > MOST_PLACES || !jumps(index) {
        return Ok(false);
    }
    let mut marks = vec![in alloc; 0; words_for(places)]?;
    Ok(are_apart(index, places, &mut marks))
}
