//! The inner lists of a nested text, read in pieces of it, each by a thread of its own.

ghost use Rattle.std.specs.Prelude.{◌≡◌, ◌<◌, ◌≤◌, ◌==◌, ◌++◌, false, not, true, length, drop, slice_index, take, IfOk, IfSome};
ghost use Rattle.std.specs.Prelude.{IsTrue};
ghost use Rattle.std.specs.List.{list_all};
ghost use Rattle.line_reader.specs.Tokens.{begins_in_token};
ghost use Rattle.call_reader.specs.NestedTexts.{marks_of, nested_class};
ghost use Rattle.call_reader.specs.NestedReads.{AreListsRead, is_no_mark};
ghost use Rattle.call_reader.specs.Pieces.{IsFrontFor};
ghost use denote.Param.Send.{IsSync, IsSend, Frees};

use crate::nested_texts::{ReadLists, read_lists};
use crate::nested_tokens::has_no_token;
use cvl_base::limits::MOST_ELEMENTS;
use cvl_base::{Memory, NoResources};
use sharing::{ThreadCount, share_of_first};
use std::thread::{Threads, join};

/// How many bytes stand before the first `[`.
fn bytes_before_list(bytes: &[u8]) -> usize
    ensures within { result ≤ length bytes.now }
    ensures no_list { IsTrue (list_all (λ b. not (b == 91)) (take result bytes.now)) }
    ensures list { result < length bytes.now → slice_index bytes.now result ≡ 91 }
    ensures between { begins_in_token nested_class (drop result bytes.now) ≡ false }
{
    for (i, byte) in bytes.iter().enumerate() {
        if *byte == b'[' {
            return i;
        }
    }
    bytes.len()
}

/// The bytes in two, of which the second begins with the first `[` from where the share of the first few threads ends, or there
/// is none.
fn cut_at_list(bytes: &[u8], few: ThreadCount, threads: ThreadCount) -> (&[u8], &[u8])
    requires { few ≤ threads }
    ensures whole { result.0.now ++ result.1.now ≡ bytes.now }
    ensures between { begins_in_token nested_class result.1.now ≡ false }
    ensures front { IsFrontFor few threads (λ b. not (b == 91)) bytes.now result.0.now }
    ensures list { 0 < length result.1.now → slice_index result.1.now 0 ≡ 91 }
{
    let place = share_of_first(few.get(), threads.get(), bytes.len());
    let (_front, back) = bytes.split_at(place);
    bytes.split_at(place + bytes_before_list(back))
}

/// The lists of two pieces, one after another. None where a token stands behind the lists of the first, and where both have too
/// many lists or numbers.
fn both<'a, A: Memory>(
    front: ReadLists<'_, A>,
    back: ReadLists<'a, A>,
) -> Result<Option<ReadLists<'a, A>>, NoResources>
    ensures whole { IfOk result (λ o. IfSome o (λ _. is_no_mark (marks_of front.entry.rest.now) ≡ true)) }
    ensures numbers { IfOk result (λ o. IfSome o (λ l. l.numbers.items ≡ front.entry.numbers.items ++ back.entry.numbers.items)) }
    ensures lengths { IfOk result (λ o. IfSome o (λ l. l.lengths.items ≡ front.entry.lengths.items ++ back.entry.lengths.items)) }
    ensures rest { IfOk result (λ o. IfSome o (λ l. l.rest.now ≡ back.entry.rest.now)) }
{
    let (mut front, mut back) = (front, back);
    let numbers = front.numbers.len() + back.numbers.len();
    let lists = front.lengths.len() + back.lengths.len();
    if !has_no_token(front.rest) || numbers > MOST_ELEMENTS || lists > MOST_ELEMENTS {
        return Ok(None);
    }
    front.numbers.append(&mut back.numbers)?;
    front.lengths.append(&mut back.lengths)?;
    Ok(Some(ReadLists {
        numbers: front.numbers,
        lengths: front.lengths,
        rest: back.rest,
    }))
}

/// Reads the inner lists with which the bytes begin by several threads, each of which reads a piece that begins with a list. Its
/// answers are those of `read_lists`, but for none: that it gives in place of a fault, and where one of several tokens is no
/// list's.
#[cycle(halves)]
pub(crate) fn lists_by_several<'a, R: Threads + Sync, A: Memory>(
    rt: &R,
    alloc: A,
    threads: ThreadCount,
    bytes: &'a [u8],
) -> Result<Option<ReadLists<'a, A>>, NoResources>
    ensures { IfOk result (λ o. IfSome o (λ l. AreListsRead bytes.now l.rest.now l.numbers.items l.lengths.items)) }
{
    if threads.get() < 2 {
        return Ok(read_lists(alloc, bytes)?.ok());
    }
    let (fewer, others) = threads.split();
    let (front, back) = cut_at_list(bytes, fewer, threads);
    let read_front = move || -> Result<Option<ReadLists<A>>, NoResources>
        requires { IsSync R.row × IsSend A.row × Frees A.Allocator A.dealloc_token }
        ensures { IfOk result (λ o. IfSome o (λ l. AreListsRead front.entry.now l.rest.now l.numbers.items l.lengths.items)) }
    { lists_by_several(rt, alloc, fewer, front) };
    let read_back = move || -> Result<Option<ReadLists<A>>, NoResources>
        requires { IsSync R.row × IsSend A.row × Frees A.Allocator A.dealloc_token }
        ensures { IfOk result (λ o. IfSome o (λ l. AreListsRead back.entry.now l.rest.now l.numbers.items l.lengths.items)) }
    { lists_by_several(rt, alloc, others, back) };
    let (front, back) = join(rt, read_front, read_back);
    match (front?, back?) {
        (Some(front), Some(back)) => both(front, back),
        _ => Ok(None),
    }
}
