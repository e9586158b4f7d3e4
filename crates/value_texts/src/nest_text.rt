//! The text of nests.

ghost use Rattle.std.specs.Prelude.{◌≡◌, ◌≤◌, List, ◌++◌, length, map, sum, take, drop, unsigned_abs, OnOk};
ghost use Rattle.value_texts.specs.Texts.{Appends, nest_text, segments_text, spaced, spaced_segments, vector_text};

use crate::part_writes::put_in_parts;
use crate::segments::SegmentTexts;
use crate::vector_text::{Page, put_vector, put_vector_alone};
use crate::written::{MOST_TEXT_BYTES, Written};
use cvl_base::{Config, Memory, NoResources};
use sharing::threads_writing_text;
use std::alloc::Allocator;
use std::thread::Threads;

/// Puts the texts of vectors that stand from a place on, with a space before each, in brackets: the first space becomes `[`.
/// After a refusal what stands before the place is as before.
#[tactic(auto, using(crate::proofs::NestWalk::brackets_on, crate::proofs::NestWalk::brackets_on_nothing, crate::proofs::NestWalk::put_at))]
fn put_brackets<T: Written, A: Allocator>(
    begun: usize,
    text: &mut Vec<u8, A>,
) -> Result<(), NoResources>
    requires { begun ≤ length text.old.items }
    ensures ok { (lists : List (List T)) → drop begun text.old.items ≡ spaced (vector_text T.text_of) lists
        → OnOk result (text.new.items ≡ take begun text.old.items ++ nest_text T.text_of lists) }
    ensures begins { take begun text.new.items ≡ take begun text.old.items }
{
    if begun == text.len() {
        text.extend_from_slice(b"[]")?;
        return Ok(());
    }
    text[begun] = b'[';
    text.push(b']')?;
    Ok(())
}

/// Appends the texts of the segments with a space before each, by the thread that calls. After a refusal the text begins as
/// before.
#[tactic(auto, using(crate::proofs::NestWalk::none_left, crate::proofs::NestWalk::segment_within, crate::proofs::NestWalk::underway))]
fn put_segments_alone<T: Written, A: Allocator>(
    lengths: &[i32],
    xs: &[T],
    page: &mut Page,
    text: &mut Vec<u8, A>,
) -> Result<(), NoResources>
    requires { sum (map unsigned_abs lengths.now) ≡ length xs.now }
    ensures { Appends result text.old.items text.new.items (spaced_segments T.text_of lengths.now xs.now) }
{
    let mut left = lengths;
    let mut rest = xs;
    while let Some((first, others)) = left.split_first() {
        let (segment, behind) = rest.split_at(first.unsigned_abs() as usize);
        text.push(b' ')?;
        put_vector_alone(segment, page, text)?;
        left = others;
        rest = behind;
    }
    Ok(())
}

/// Appends the text of the vectors into which the lengths cut the elements, by the thread that calls. After a refusal the text
/// begins as before.
pub(crate) fn put_nest_alone<T: Written, A: Allocator>(
    lengths: &[i32],
    xs: &[T],
    page: &mut Page,
    text: &mut Vec<u8, A>,
) -> Result<(), NoResources>
    requires { sum (map unsigned_abs lengths.now) ≡ length xs.now }
    ensures { Appends result text.old.items text.new.items (segments_text T.text_of lengths.now xs.now) }
{
    let begun = text.len();
    put_segments_alone(lengths, xs, page, text)?;
    put_brackets::<T, A>(begun, text)?;
    Ok(())
}

/// Appends the texts of the segments with a space before each, in turn, and of long ones by as many threads as pay. After a
/// refusal the text begins as before.
#[tactic(auto, using(crate::proofs::NestWalk::none_left, crate::proofs::NestWalk::segment_within, crate::proofs::NestWalk::underway))]
fn put_segments_in_turn<R: Threads + Sync, T: Written + Sync, A: Memory>(
    rt: &R,
    alloc: A,
    config: Config,
    lengths: &[i32],
    xs: &[T],
    page: &mut Page,
    text: &mut Vec<u8, A>,
) -> Result<(), NoResources>
    requires { sum (map unsigned_abs lengths.now) ≡ length xs.now }
    ensures { Appends result text.old.items text.new.items (spaced_segments T.text_of lengths.now xs.now) }
{
    let mut left = lengths;
    let mut rest = xs;
    while let Some((first, others)) = left.split_first() {
        let (segment, behind) = rest.split_at(first.unsigned_abs() as usize);
        text.push(b' ')?;
        put_vector(rt, alloc, config, segment, page, text)?;
        left = others;
        rest = behind;
    }
    Ok(())
}

/// Whether no segment has more than so many elements.
fn are_short(lengths: &[i32], most: usize) -> bool {
    lengths
        .iter()
        .all(|length| length.unsigned_abs() as usize <= most)
}

/// `put_segments_in_turn` by as many threads as pay, each of which writes some whole segments. Where a segment is longer
/// than a thread's share, the segments are written in turn, and long ones by several threads.
fn put_spaced_segments<R: Threads + Sync, T: Written + Sync, A: Memory>(
    rt: &R,
    alloc: A,
    config: Config,
    lengths: &[i32],
    xs: &[T],
    page: &mut Page,
    text: &mut Vec<u8, A>,
) -> Result<(), NoResources>
    requires { sum (map unsigned_abs lengths.now) ≡ length xs.now }
    ensures { Appends result text.old.items text.new.items (spaced_segments T.text_of lengths.now xs.now) }
{
    let most = xs.len().max(lengths.len());
    let threads = threads_writing_text(config, most);
    let moves_much = text.len() / MOST_TEXT_BYTES > most;
    if threads.get() < 2 || moves_much || !are_short(lengths, xs.len() / threads.get()) {
        return put_segments_in_turn(rt, alloc, config, lengths, xs, page, text);
    }
    put_in_parts(rt, alloc, threads, SegmentTexts { lengths, xs }, text)
}

/// Appends the text of the vectors into which the lengths cut the elements, by as many threads as pay. After a refusal the text
/// begins as before.
pub(crate) fn put_nest<R: Threads + Sync, T: Written + Sync, A: Memory>(
    rt: &R,
    alloc: A,
    config: Config,
    lengths: &[i32],
    xs: &[T],
    page: &mut Page,
    text: &mut Vec<u8, A>,
) -> Result<(), NoResources>
    requires { sum (map unsigned_abs lengths.now) ≡ length xs.now }
    ensures { Appends result text.old.items text.new.items (segments_text T.text_of lengths.now xs.now) }
{
    let begun = text.len();
    put_spaced_segments(rt, alloc, config, lengths, xs, page, text)?;
    put_brackets::<T, A>(begun, text)?;
    Ok(())
}
