//! A back permute in one walk, which several threads may share: each checks indices and writes their elements at once. An index
//! that is no place of the source takes another element, so that every place is written, and the first such index is reported.

ghost use Rattle.std.specs.Prelude.{◌≡◌, ◌+◌, ◌≤◌, IfOk, List, None, Option, length, map, vec_len};
ghost use Rattle.std.specs.List.{All};
ghost use Rattle.cvl_base.specs.declared.fault.FaultNo.TheVariants.{IndexOutOfRange};
ghost use Rattle.cvl_base.specs.Elementwise.{values_from};
ghost use Rattle.cvl_base.specs.Extracts.{element_at};
ghost use Rattle.cvl_base.specs.Gives.{Gives};
ghost use Rattle.cvl_base.specs.Limits.{most_places};
ghost use Rattle.fresh.specs.Found.{first_without};
ghost use Rattle.fresh.specs.Parts.{part};
ghost use Rattle.fresh.specs.Places.{stretch, with_items};
ghost use Rattle.permute_walks.specs.Indices.{each_or};

use crate::backs::write_elements_at;
use crate::elements::element_of;
use crate::index_counts::count_outside;
use cvl_base::{Fault, FaultNo, Memory, Refused};
use fresh::{CheckedWriter, Run, first_found, write_checked_in_runs};
use sharing::{ThreadCount, share_of_first};
use std::thread::Threads;

/// The element at an index, if it is a place of the source.
#[inline]
fn element_at<T: Copy>(source: &[T], index: &i32) -> Option<T>
    ensures { result ≡ element_at source.now index.now }
{
    if *index < 0 {
        None
    } else {
        element_of(source, *index as usize)
    }
}

/// The most indices that are checked before their elements are taken. So many stay in the nearest cache.
const BLOCK: usize = 4096;

/// Pushes the element at each index, or another one if an index is no place of the source, and returns the place of the first
/// such index in the block of the run.
// Over a long vector one loop fetches indices while it takes elements; two loops over each block would wait for them.
#[inline(never)]
fn push_or_other<T: Copy>(
    run: Run<T>,
    source: &[T],
    index: &[i32],
    other: T,
) -> (Run<T>, Option<usize>)
    requires room { length index.now ≤ run.room }
    ensures run { result.0 ≡ with_items run (each_or other (map (element_at source.now) index.now)) }
    ensures found { result.1 ≡ first_without (run.first + length run.items) (map (element_at source.now) index.now) }
{
    let (mut run, mut found) = (run, None);
    for i in index {
        let element = element_at(source, i);
        found = first_found(found, element, run.next_place());
        run.push(element.unwrap_or(other));
    }
    (run, found)
}

/// The same for a block of indices, which are checked first: if each is a place of the source, as most often, the loop that takes
/// the elements has no branch for each.
#[inline(always)]
fn push_block<T: Copy>(
    run: Run<T>,
    source: &[T],
    index: &[i32],
    other: T,
) -> (Run<T>, Option<usize>)
    requires room { length index.now ≤ run.room }
    requires few { length index.now ≤ most_places }
    ensures run { result.0 ≡ with_items run (each_or other (map (element_at source.now) index.now)) }
    ensures found { result.1 ≡ first_without (run.first + length run.items) (map (element_at source.now) index.now) }
{
    if count_outside(index, source.len()) == 0 {
        return (write_elements_at(run, source, index), None);
    }
    push_or_other(run, source, index, other)
}

/// How the elements at some indices are pushed.
pub trait PushAt<T: Copy> {
    /// Pushes the element at each index, or another one if an index is no place of the source, and returns the place of the first
    /// such index in the block of the run.
    fn push_at(run: Run<T>, source: &[T], index: &[i32], other: T) -> (Run<T>, Option<usize>)
        requires room { length index.now ≤ run.room }
        ensures run { result.0 ≡ with_items run (each_or other (map (element_at source.now) index.now)) }
        ensures found { result.1 ≡ first_without (run.first + length run.items) (map (element_at source.now) index.now) };
}

/// Index by index, for few of them: the loop ends at the first index that is no place of the source, and keeps only the run.
pub struct OneByOne;

impl<T: Copy> PushAt<T> for OneByOne {
    // Inlined, so that what is known of the run stays in registers from segment to segment.
    #[inline(always)]
    fn push_at(run: Run<T>, source: &[T], index: &[i32], other: T) -> (Run<T>, Option<usize>)
        requires room { length index.now ≤ run.room }
        ensures run { result.0 ≡ with_items run (each_or other (map (element_at source.now) index.now)) }
        ensures found { result.1 ≡ first_without (run.first + length run.items) (map (element_at source.now) index.now) }
    {
        let mut run = run;
        for k in 0..index.len() {
            let Some(element) = element_at(source, &index[k]) else {
                let (_, rest) = index.split_at(k);
                return push_or_other(run, source, rest, other);
            };
            run.push(element);
        }
        (run, None)
    }
}

/// Block by block, for many indices: those of a block are checked before their elements are taken.
pub struct ByBlocks;

impl<T: Copy> PushAt<T> for ByBlocks {
    fn push_at(run: Run<T>, source: &[T], index: &[i32], other: T) -> (Run<T>, Option<usize>)
        requires room { length index.now ≤ run.room }
        ensures run { result.0 ≡ with_items run (each_or other (map (element_at source.now) index.now)) }
        ensures found { result.1 ≡ first_without (run.first + length run.items) (map (element_at source.now) index.now) }
    {
        let (mut run, mut found, mut rest) = (run, None, index);
        while !rest.is_empty() {
            let (block, others) = rest.split_at(rest.len().min(BLOCK));
            let (next, here) = push_block(run, source, block, other);
            run = next;
            found = found.or(here);
            rest = others;
        }
        (run, found)
    }
}

/// Takes the element at each index: the walk of a flat back permute.
#[derive(Drop)]
pub struct ElementsTaken<'a, T> {
    /// The elements.
    pub source: &'a [T],
    /// The index of each place.
    pub index: &'a [i32],
    /// Taken if an index is no place of the source.
    pub other: T,
}

impl<'a, T: Copy> CheckedWriter<T> for ElementsTaken<'a, T> {
    ghost use Rattle.std.specs.Prelude.{◌≡◌, [], map};
    ghost use Rattle.cvl_base.specs.Extracts.{element_at};
    ghost use Rattle.permute_walks.specs.Indices.{each_or};
    ghost use Rattle.sharing.specs.Shares.{share_of_first};

    ghost whole = { λ w. each_or w.other (map (element_at w.source.now) w.index.now) };

    ghost values = { λ w. map (element_at w.source.now) w.index.now };

    ghost IsShare = { λ w first room few threads places. places ≡ share_of_first few threads room };

    fn write(&self, run: Run<T>) -> (Run<T>, Option<usize>)
        requires empty { run.items ≡ [] }
        requires within { run.first + run.room
            ≤ length (each_or self.now.other (map (element_at self.now.source.now) self.now.index.now)) }
        ensures run { result.0 ≡ stretch run.block run.first
            (part (each_or self.now.other (map (element_at self.now.source.now) self.now.index.now)) run.first run.room) 0 }
        ensures found { result.1 ≡ first_without run.first
            (part (map (element_at self.now.source.now) self.now.index.now) run.first run.room) }
    {
        let (_, rest) = self.index.split_at(run.next_place());
        let (index, _) = rest.split_at(run.room());
        push_or_other(run, self.source, index, self.other)
    }

    fn share(&self, _first: usize, room: usize, few: usize, threads: usize) -> usize {
        share_of_first(few, threads, room)
    }
}

/// What a writer takes at `indices` indices, in one walk, which at most `threads` threads share: `IndexOutOfRange` at the first
/// place whose index takes nothing. `NoResources` if there is no memory for the result.
pub fn take_in_runs<T, R, A, W>(
    rt: &R,
    alloc: A,
    threads: ThreadCount,
    writer: &W,
    indices: usize,
) -> Result<Vec<T, A>, Refused>
where
    T: Copy + Send + Sync,
    R: Threads + Sync,
    A: Memory,
    W: CheckedWriter<T> + Sync,
    requires as_long { indices ≡ length (W.values writer.now) }
    requires few { indices ≤ most_places }
    requires written { (other : T) × (W.whole writer.now ≡ each_or other (W.values writer.now)) }
    ensures values { Gives (λ v. v.items) result (values_from IndexOutOfRange 0 (W.values writer.now)) }
    ensures as_long { IfOk result (λ v. vec_len v ≡ indices) }
{
    let (elements, found) = write_checked_in_runs(rt, alloc, threads, writer, indices)?;
    match found {
        None => Ok(elements),
        Some(place) => Err(Refused::Fault(Fault::at(FaultNo::IndexOutOfRange, place as u32))),
    }
}

/// The same if the source has no element, so that no index is a place of it.
#[tactic(auto, using(crate::proofs::TakenOr::nothing_taken))]
pub fn take_nothing<T: Copy, A: Memory>(alloc: A, indices: usize) -> Result<Vec<T, A>, Refused>
    ensures values { (values : List (Option T)) → length values ≡ indices → All (λ v. v ≡ None) values
        → Gives (λ v. v.items) result (values_from IndexOutOfRange 0 values) }
    ensures as_long { IfOk result (λ v. vec_len v ≡ indices) }
{
    if indices > 0 {
        return Err(Refused::Fault(Fault::at(FaultNo::IndexOutOfRange, 0)));
    }
    Ok(Vec::new(alloc))
}
