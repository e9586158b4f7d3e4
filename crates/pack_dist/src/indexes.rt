//! Index: the numbers from a first one on in equal steps, in all or in each segment.

ghost use Rattle.std.specs.Prelude.{◌≡◌, ◌+◌, ◌-◌, ◌<◌, ◌≤◌, ◌^◌, ◌++◌, IfOk, MatchResult, Ok, Err, length, sum, vec_len};
ghost use Rattle.std.specs.List.{zip};
ghost use Rattle.cvl_base.specs.Distributes.{index_of, index_within};
ghost use Rattle.cvl_base.specs.Gives.{Gives};
ghost use Rattle.cvl_base.specs.Limits.{most_elements, most_places};
ghost use Rattle.cvl_base.specs.Lists.{joined};
ghost use Rattle.cvl_base.specs.Rooms.{Overwrites, in_room};
ghost use Rattle.cvl_base.specs.SegmentedCalls.{seg_index_of};
ghost use Rattle.fresh.specs.Places.{stretch};
ghost use Rattle.pack_dist.specs.Lists.{progressions_of};
ghost use Rattle.pack_dist.specs.Progressions.{numbers_from};

use crate::checks::length_for;
use crate::writes::{write_room, write_vector};
use cvl_base::limits::{MOST_ELEMENTS, MOST_PLACES};
use cvl_base::{Config, Fault, Memory, Refused, check_agree};
use fresh::{FEW, Run, Writer};
use segdes::{EndToEnd, SegDes, Segments};
use std::alloc::{AllocError, Allocator};
use std::thread::Threads;

/// The numbers `init`, `init + stride`, `init + 2 * stride` and so on, `count` of them, each wrapped to 32 bits: `ind_luz`.
///
/// The faults have no place: `NegativeLength` if the count is negative, and `TooLong` if it is above 4,194,304. Both come before
/// any memory is asked for. Source: CVL's index.
pub fn index<R: Threads + Sync, A: Memory>(
    rt: &R,
    alloc: A,
    config: Config,
    init: i32,
    stride: i32,
    count: i32,
) -> Result<Vec<i32, A>, Refused>
    ensures values { Gives (λ v. v.items) result (index_of init stride count) }
    ensures in_limit { IfOk result (λ v. vec_len v ≤ most_elements) }
{
    let length = length_for(&count, MOST_ELEMENTS)?;
    let numbers = Progression {
        init,
        stride,
        length,
    };
    Ok(write_vector(rt, alloc, config, &numbers, length, length)?)
}

/// [`index`] into the caller's room, on the calling thread: `LengthMismatch`, without a place, if the room is not as long as the
/// count says, which is checked last. It makes up to 2,147,483,647 numbers, and takes no memory.
pub fn index_over(init: i32, stride: i32, count: i32, out: &mut [i32]) -> Result<(), Fault>
    ensures { Overwrites (in_room (length out.old) (index_within most_places init stride count)) result out.old out.new }
{
    let length = length_for(&count, MOST_PLACES)?;
    let numbers = Progression {
        init,
        stride,
        length,
    };
    write_room(&numbers, length, out)
}

/// For each segment the numbers from its `init` on in steps of its `stride`, each wrapped to 32 bits, one segment after
/// another: `ind_lez`.
///
/// There is one init and one stride for each segment, else `LengthMismatch`, without a place. The result is as long as the
/// segments together, at most 4,194,304 numbers. Source: CVL's segmented index.
pub fn seg_index<R: Threads + Sync, A: Memory>(
    rt: &R,
    alloc: A,
    config: Config,
    inits: &[i32],
    strides: &[i32],
    d: &SegDes<A>,
) -> Result<Vec<i32, A>, Refused>
    requires { sum d.now ≤ most_elements }
    ensures values { Gives (λ v. v.items) result (seg_index_of inits.now strides.now d.now) }
    ensures as_long { IfOk result (λ v. vec_len v ≡ sum d.now) }
{
    let (numbers, total) = segment_progressions(inits, strides, d)?;
    Ok(write_vector(rt, alloc, config, &numbers, total, total)?)
}

/// The numbers of the segments and how many they are: `LengthMismatch`, without a place, if there aren't one init and one stride
/// for each segment.
fn segment_progressions<'a, A: Allocator>(
    inits: &'a [i32],
    strides: &'a [i32],
    d: &'a SegDes<A>,
) -> Result<(EndToEnd<SegmentProgressions<'a, A>>, usize), Fault>
    requires { sum d.now ≤ most_elements }
    ensures values { MatchResult result
        (λ made. seg_index_of inits.now strides.now d.now ≡ Ok (joined
        (progressions_of made.0.segments.inits.now made.0.segments.strides.now made.0.segments.d.now)))
        (λ f. seg_index_of inits.now strides.now d.now ≡ Err f) }
    ensures items { IfOk result (λ made. made.1 ≡ length (joined
        (progressions_of made.0.segments.inits.now made.0.segments.strides.now made.0.segments.d.now))) }
    ensures total { IfOk result (λ made. (made.1 ≡ sum d.now) × (made.1 ≤ most_places)) }
{
    check_agree(inits.len(), strides.len())?;
    check_agree(inits.len(), d.count())?;
    let total = d.total();
    let numbers = EndToEnd {
        segments: SegmentProgressions { inits, strides, d },
    };
    Ok((numbers, total))
}

/// `count` numbers in equal steps.
#[derive(Drop)]
struct Progression {
    init: i32,
    stride: i32,
    length: usize,
    ghost few: { length ≤ most_places },
}

impl Writer<i32> for Progression {
    ghost use Rattle.std.specs.Prelude.{[]};
    ghost use Rattle.fresh.specs.Parts.{part};
    ghost use Rattle.pack_dist.specs.Progressions.{progression};

    ghost whole = { λ p. progression p.init p.stride p.length };

    fn write(&self, run: Run<i32>) -> Run<i32>
        requires empty { run.items ≡ [] }
        requires within { run.first + run.room ≤ length (progression self.now.init self.now.stride self.now.length) }
        ensures { result ≡ stretch run.block run.first
            (part (progression self.now.init self.now.stride self.now.length) run.first run.room) 0 }
    {
        let (first, count) = (run.first(), run.room());
        push_progression(run, &self.init, &self.stride, first, count)
    }
}

/// Numbers in equal steps for each segment.
struct SegmentProgressions<'a, A: Allocator> {
    inits: &'a [i32],
    strides: &'a [i32],
    d: &'a SegDes<A>,
    ghost one_each: { length (zip inits.now strides.now) ≡ length d.now },
    ghost few: { sum d.now ≤ most_places },
}

impl<'a, A: Allocator> Clone for SegmentProgressions<'a, A> {
    ghost use Rattle.std.specs.Prelude.{⊤};

    ghost is_clone = { λ x y. y ≡ x };

    ghost is_infallible = { λ _. ⊤ };

    fn clone(&self) -> Result<SegmentProgressions<'a, A>, AllocError> {
        Ok(*self)
    }
}

impl<'a, A: Allocator> Copy for SegmentProgressions<'a, A> {}

impl<'a, A: Allocator> Segments for SegmentProgressions<'a, A> {
    ghost use Rattle.std.specs.Prelude.{[], map, slice_index_or};
    ghost use Rattle.fresh.specs.Parts.{part};
    ghost use Rattle.pack_dist.specs.Lists.{progressions_of};

    type Item = i32;

    type A = A;

    ghost lists = { λ p. progressions_of p.inits.now p.strides.now p.d.now };

    fn descriptor(&self) -> &SegDes<A>
        ensures { result.now ≡ map length (progressions_of self.now.inits.now self.now.strides.now self.now.d.now) }
    {
        self.d
    }

    fn push_part(&self, run: Run<i32>, s: usize, from: usize, count: usize) -> Run<i32>
        requires segment { s < length (progressions_of self.now.inits.now self.now.strides.now self.now.d.now) }
        requires within { from + count
            ≤ length (slice_index_or (progressions_of self.now.inits.now self.now.strides.now self.now.d.now) s []) }
        requires room { count ≤ run.room }
        ensures { result ≡ stretch run.block run.first (run.items
            ++ part (slice_index_or (progressions_of self.now.inits.now self.now.strides.now self.now.d.now) s []) from count)
            (run.room - count) }
    {
        push_few_numbers(run, &self.inits[s], &self.strides[s], from, count)
    }
}

/// Pushes `count` of the numbers from `init` on in steps of `stride`, each wrapped to 32 bits, beginning with the one at
/// place `from`. There must be room for them.
fn push_progression(
    mut run: Run<i32>,
    init: &i32,
    stride: &i32,
    from: usize,
    count: usize,
) -> Run<i32>
    requires few { from < 2 ^ 31 }
    requires room { count ≤ run.room }
    ensures { result ≡ stretch run.block run.first (run.items ++ numbers_from init.now stride.now from count) (run.room - count) }
{
    // read once, since the loop writes memory
    let step = *stride;
    let mut next = (from as i32).wrapping_mul(step).wrapping_add(*init);
    for _ in 0..count {
        run.push(next);
        next = next.wrapping_add(step);
    }
    run
}

/// The same for numbers that are often few: [`FEW`] are written at once, and those that are too many are taken back.
fn push_few_numbers(run: Run<i32>, init: &i32, stride: &i32, from: usize, count: usize) -> Run<i32>
    requires few { from < 2 ^ 31 }
    requires room { count ≤ run.room }
    ensures { result ≡ stretch run.block run.first (run.items ++ numbers_from init.now stride.now from count) (run.room - count) }
{
    if !run.takes_few(count) {
        return push_progression(run, init, stride, from, count);
    }
    push_progression(run, init, stride, from, FEW).without_last(FEW - count)
}
