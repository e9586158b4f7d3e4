//! Distribute: copies of one value, or of one for each segment.

ghost use Rattle.std.specs.Prelude.{◌≡◌, ◌+◌, ◌-◌, ◌≤◌, ◌++◌, IfOk, MatchResult, Ok, Err, length, sum, vec_len};
ghost use Rattle.cvl_base.specs.Distributes.{distribute_of, distribute_within};
ghost use Rattle.cvl_base.specs.Gives.{Gives};
ghost use Rattle.cvl_base.specs.Limits.{most_elements, most_places};
ghost use Rattle.cvl_base.specs.Lists.{joined};
ghost use Rattle.cvl_base.specs.Rooms.{Overwrites, in_room};
ghost use Rattle.cvl_base.specs.SegmentedCalls.{seg_distribute_of};
ghost use Rattle.fresh.specs.Places.{stretch};
ghost use Rattle.pack_dist.specs.Lists.{copies_of};

use crate::checks::length_for;
use crate::writes::{write_room, write_vector};
use cvl_base::limits::{MOST_ELEMENTS, MOST_PLACES};
use cvl_base::{Config, Fault, Memory, Refused, check_agree};
use fresh::{Copies, Run};
use segdes::{EndToEnd, SegDes, Segments};
use std::alloc::{AllocError, Allocator};
use std::thread::Threads;

/// `count` copies of one value: `dis_vuz` and its like.
///
/// The faults have no place: `NegativeLength` if the count is negative, and `TooLong` if it is above 4,194,304. Both come before
/// any memory is asked for. Source: CVL's distribute.
pub fn distribute<T: Copy + Send + Sync, R: Threads + Sync, A: Memory>(
    rt: &R,
    alloc: A,
    config: Config,
    value: T,
    count: i32,
) -> Result<Vec<T, A>, Refused>
    ensures values { Gives (λ v. v.items) result (distribute_of value count) }
    ensures in_limit { IfOk result (λ v. vec_len v ≤ most_elements) }
{
    let length = length_for(&count, MOST_ELEMENTS)?;
    let copies = Copies {
        item: value,
        count: length,
    };
    Ok(write_vector(rt, alloc, config, &copies, length, length)?)
}

/// [`distribute`] into the caller's room, on the calling thread: `LengthMismatch`, without a place, if the room is not as long as
/// the count says, which is checked last. It makes up to 2,147,483,647 copies, and takes no memory.
pub fn distribute_over<T: Copy>(value: T, count: i32, out: &mut [T]) -> Result<(), Fault>
    ensures { Overwrites (in_room (length out.old) (distribute_within most_places value count)) result out.old out.new }
{
    let length = length_for(&count, MOST_PLACES)?;
    let copies = Copies {
        item: value,
        count: length,
    };
    write_room(&copies, length, out)
}

/// For each segment as many copies of its value as the segment is long, one segment after another: `dis_vez` and
/// its like.
///
/// There is one value for each segment, else `LengthMismatch`, without a place. The result is as long as the segments together,
/// at most 4,194,304 elements. Source: CVL's segmented distribute.
pub fn seg_distribute<T: Copy + Send + Sync, R: Threads + Sync, A: Memory>(
    rt: &R,
    alloc: A,
    config: Config,
    values: &[T],
    d: &SegDes<A>,
) -> Result<Vec<T, A>, Refused>
    requires { sum d.now ≤ most_elements }
    ensures values { Gives (λ v. v.items) result (seg_distribute_of values.now d.now) }
    ensures as_long { IfOk result (λ v. vec_len v ≡ sum d.now) }
{
    let (copies, total) = segment_copies(values, d)?;
    Ok(write_vector(rt, alloc, config, &copies, total, total)?)
}

/// The copies of the segments' values and their number: `LengthMismatch`, without a place, if there isn't one value for each
/// segment.
fn segment_copies<'a, T: Copy, A: Allocator>(
    values: &'a [T],
    d: &'a SegDes<A>,
) -> Result<(EndToEnd<SegmentCopies<'a, T, A>>, usize), Fault>
    requires { sum d.now ≤ most_elements }
    ensures values { MatchResult result
        (λ made. seg_distribute_of values.now d.now
        ≡ Ok (joined (copies_of made.0.segments.values.now made.0.segments.d.now)))
        (λ f. seg_distribute_of values.now d.now ≡ Err f) }
    ensures items { IfOk result (λ made. made.1 ≡ length (joined (copies_of made.0.segments.values.now made.0.segments.d.now))) }
    ensures total { IfOk result (λ made. (made.1 ≡ sum d.now) × (made.1 ≤ most_places)) }
{
    check_agree(values.len(), d.count())?;
    let total = d.total();
    let copies = EndToEnd {
        segments: SegmentCopies { values, d },
    };
    Ok((copies, total))
}

/// Copies of a value for each segment.
struct SegmentCopies<'a, T: Copy, A: Allocator> {
    values: &'a [T],
    d: &'a SegDes<A>,
    ghost one_each: { length values.now ≡ length d.now },
}

impl<'a, T: Copy, A: Allocator> Clone for SegmentCopies<'a, T, A> {
    ghost use Rattle.std.specs.Prelude.{⊤};

    ghost is_clone = { λ x y. y ≡ x };

    ghost is_infallible = { λ _. ⊤ };

    fn clone(&self) -> Result<SegmentCopies<'a, T, A>, AllocError> {
        Ok(*self)
    }
}

impl<'a, T: Copy, A: Allocator> Copy for SegmentCopies<'a, T, A> {}

impl<'a, T: Copy, A: Allocator> Segments for SegmentCopies<'a, T, A> {
    ghost use Rattle.std.specs.Prelude.{◌<◌, [], map, slice_index_or};
    ghost use Rattle.fresh.specs.Parts.{part};
    ghost use Rattle.pack_dist.specs.Lists.{copies_of};

    type Item = T;

    type A = A;

    ghost lists = { λ c. copies_of c.values.now c.d.now };

    fn descriptor(&self) -> &SegDes<A>
        ensures { result.now ≡ map length (copies_of self.now.values.now self.now.d.now) }
    {
        self.d
    }

    fn push_part(&self, run: Run<T>, s: usize, from: usize, count: usize) -> Run<T>
        requires segment { s < length (copies_of self.now.values.now self.now.d.now) }
        requires within { from + count ≤ length (slice_index_or (copies_of self.now.values.now self.now.d.now) s []) }
        requires room { count ≤ run.room }
        ensures { result ≡ stretch run.block run.first
            (run.items ++ part (slice_index_or (copies_of self.now.values.now self.now.d.now) s []) from count)
            (run.room - count) }
    {
        run.push_few_copies(self.values[s], count)
    }
}
