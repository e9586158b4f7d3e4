//! Nested texts, each read by as many threads as its length pays for.

ghost use Rattle.std.specs.Prelude.{◌≡◌, ◌≤◌, IfOk, IfSome, length, sum, vec_len};
ghost use Rattle.cvl_base.specs.Gives.{Gives};
ghost use Rattle.cvl_base.specs.Limits.{most_elements};
ghost use Rattle.call_reader.specs.NestedTexts.{nested_of};
ghost use Rattle.call_reader.specs.NestedReads.{IsNestRead};

use crate::nested_pieces::lists_by_several;
use crate::nested_texts::nest_alone;
use crate::nested_tokens::{after_closing, after_opening, has_no_token};
use cvl_base::{Config, Lengths, Memory, NoResources, Refused};
use segdes::SegDes;
use sharing::{ThreadCount, threads_reading};
use std::thread::Threads;

/// The numbers of all inner lists and how many each list has, as several threads read them. None if a token can't stand there or
/// there are too many: then the calling thread reads the text to find its fault.
fn nest_by_several<R: Threads + Sync, A: Memory>(
    rt: &R,
    alloc: A,
    threads: ThreadCount,
    bytes: &[u8],
) -> Result<Option<(Vec<i32, A>, Vec<i32, A>)>, NoResources>
    ensures read { IfOk result (λ o. IfSome o (λ p. IsNestRead bytes.now p.0.items p.1.items)) }
    ensures few { IfOk result (λ o. IfSome o (λ p. (vec_len p.0 ≤ most_elements) × (vec_len p.1 ≤ most_elements))) }
{
    let Some(inner) = after_opening(bytes) else {
        return Ok(None);
    };
    let Some(lists) = lists_by_several(rt, alloc, threads, inner)? else {
        return Ok(None);
    };
    match after_closing(lists.rest) {
        Some(behind) if has_no_token(behind) => Ok(Some((lists.numbers, lists.lengths))),
        _ => Ok(None),
    }
}

/// The numbers of a nest that was read, and the descriptor of its lengths. The bytes are those that it was read from.
fn described<A: Memory>(
    alloc: A,
    bytes: &[u8],
    numbers: Vec<i32, A>,
    lengths: Vec<i32, A>,
) -> Result<(Vec<i32, A>, SegDes<A>), Refused>
    requires read { IsNestRead bytes.now numbers.items lengths.items }
    requires few { (vec_len numbers ≤ most_elements) × (vec_len lengths ≤ most_elements) }
    ensures values { Gives (λ p. (p.0.items, p.1)) result (nested_of bytes.now) }
    ensures total { IfOk result (λ p. sum p.1 ≡ vec_len p.0) }
    ensures in_limit { IfOk result (λ p. vec_len p.0 ≤ most_elements) }
    ensures few { IfOk result (λ p. length p.1 ≤ most_elements) }
{
    // only the contract names it
    let _bytes = bytes;
    let descriptor = SegDes::new(alloc, Lengths::from_vec(lengths))?;
    Ok((numbers, descriptor))
}

/// Reads a nested text on the calling thread, for code that has no runtime. The answers are those of [`read_nested`].
pub fn read_nested_alone<A: Memory>(
    alloc: A,
    bytes: &[u8],
) -> Result<(Vec<i32, A>, SegDes<A>), Refused>
    ensures values { Gives (λ p. (p.0.items, p.1)) result (nested_of bytes.now) }
    ensures total { IfOk result (λ p. sum p.1 ≡ vec_len p.0) }
    ensures in_limit { IfOk result (λ p. vec_len p.0 ≤ most_elements) }
    ensures few { IfOk result (λ p. length p.1 ≤ most_elements) }
{
    let (numbers, lengths) = nest_alone(alloc, bytes)?;
    described(alloc, bytes, numbers, lengths)
}

/// Reads a nested text: `[`, any number of inner lists, `]`; an inner list is `[`, signed decimals between white space, `]`.
/// Returns the numbers of all inner lists, in order, and the descriptor of the lists' lengths.
///
/// Its faults are `TooLong`, without a place, if there are more than 4,194,304 tokens other than brackets or more than 4,194,305
/// `[`, whatever they are; else `BadInput` at the first token that can't stand there, counted from 0, or at the number of tokens
/// if they end too early. `NoResources` if memory is refused. Several threads read a long text, each the lists of a piece, but no
/// more than the configuration has workers.
pub fn read_nested<R: Threads + Sync, A: Memory>(
    rt: &R,
    alloc: A,
    config: Config,
    bytes: &[u8],
) -> Result<(Vec<i32, A>, SegDes<A>), Refused>
    ensures values { Gives (λ p. (p.0.items, p.1)) result (nested_of bytes.now) }
    ensures total { IfOk result (λ p. sum p.1 ≡ vec_len p.0) }
    ensures in_limit { IfOk result (λ p. vec_len p.0 ≤ most_elements) }
    ensures few { IfOk result (λ p. length p.1 ≤ most_elements) }
{
    let threads = threads_reading(config, bytes.len());
    if threads.get() >= 2 {
        if let Some((numbers, lengths)) = nest_by_several(rt, alloc, threads, bytes)? {
            return described(alloc, bytes, numbers, lengths);
        }
    }
    read_nested_alone(alloc, bytes)
}
