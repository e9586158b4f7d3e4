//! The two walks of a simple permute into a room. The first marks the place that each index names, a byte a place; a sender would
//! need four. The second writes each element to its index.

ghost use Rattle.std.specs.Prelude.{◌≡◌, ◌≤◌, ◌↔◌, false, filter_map, length, replicate, slice_get, IfOk, IsTrue, None};
ghost use Rattle.cvl_base.specs.Limits.{most_places};
ghost use Rattle.cvl_base.specs.Permutes.{all_destinations, first_fault, wrongs};
ghost use Rattle.permute_walks.specs.Senders.{last_senders, senders_of, sent_marks};

use cvl_base::{Memory, NoResources, true_count};

/// Marks the place that each index names; false if an index names none, and then the marks mean nothing.
// Without its sign an index below 0 is beyond the longest vector, so that one comparison is enough. Nothing that stands there is
// read. Inlined into a large function the loop keeps its pointers on the stack.
#[inline(never)]
fn mark_each(marks: &mut [bool], index: &[i32]) -> bool
    requires fresh { marks.old ≡ replicate (length marks.old) false }
    requires in_limit { (length index.now ≤ most_places) × (length marks.old ≤ most_places) }
    ensures marked { IsTrue result → marks.new ≡ sent_marks (last_senders 0 (all_destinations index.now) 0 (length marks.old)) }
    ensures inside { None ≡ first_fault 0 (wrongs (length marks.old) (all_destinations index.now)) → IsTrue result }
{
    let places = marks.len();
    for i in index {
        let named = i.cast_unsigned() as usize;
        if named >= places {
            return false;
        }
        marks[named] = true;
    }
    true
}

/// Whether each index names one of the marked places, and no two the same.
fn are_apart(marks: &mut [bool], index: &[i32]) -> bool
    requires fresh { marks.old ≡ replicate (length marks.old) false }
    requires in_limit { (length index.now ≤ most_places) × (length marks.old ≤ most_places) }
    ensures { IsTrue result ↔ None ≡ first_fault 0 (wrongs (length marks.old) (all_destinations index.now)) }
{
    mark_each(marks, index) && true_count(marks) == index.len()
}

/// The first walk: whether the indices are a permutation of their own places, so that none is out of range or repeated.
/// `NoResources` if there is no memory for a byte a place.
pub fn is_permutation<A: Memory>(alloc: A, index: &[i32]) -> Result<bool, NoResources>
    requires in_limit { length index.now ≤ most_places }
    ensures { IfOk result (λ is.
        IsTrue is ↔ None ≡ first_fault 0 (wrongs (length index.now) (all_destinations index.now))) }
{
    let mut marks = vec![in alloc; false; index.len()]?;
    Ok(are_apart(&mut marks, index))
}

/// The same with the caller's marks, one for each index. What they hold does not matter.
pub fn is_permutation_by(marks: &mut [bool], index: &[i32]) -> bool
    requires as_long { length marks.old ≡ length index.now }
    requires in_limit { length index.now ≤ most_places }
    ensures { IsTrue result ↔ None ≡ first_fault 0 (wrongs (length index.now) (all_destinations index.now)) }
{
    marks.fill(false);
    are_apart(marks, index)
}

/// The second walk: writes the element of each place to its index; the indices are a permutation of their own places.
#[inline(never)]
pub fn scatter_over<T: Copy>(source: &[T], index: &[i32], out: &mut [T])
    requires as_long { (length source.now ≡ length index.now) × (length out.old ≡ length index.now) }
    requires in_limit { length index.now ≤ most_places }
    requires apart { None ≡ first_fault 0 (wrongs (length index.now) (all_destinations index.now)) }
    ensures { out.new ≡ filter_map (slice_get source.now) (senders_of 0 (all_destinations index.now) (length index.now)) }
{
    for (k, i) in index.iter().enumerate() {
        out[*i as usize] = source[k];
    }
}
