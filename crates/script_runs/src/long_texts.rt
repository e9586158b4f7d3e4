//! Writes the text of a long vector piece by piece.

ghost use Rattle.std.specs.Prelude.{◌≡◌, ◌^◌, ◌<◌, ◌≤◌, ◌-◌, ◌++◌, codes, length, take, IfOk, Ok};
ghost use Rattle.std.specs.List.{concat};
ghost use Rattle.std.specs.Thread.{IsSend, IsSync};
ghost use Rattle.cvl_base.specs.Limits.{most_workers};
ghost use Rattle.value_texts.specs.Texts.{spaced, vector_text};
ghost use Rattle.vector_handles.specs.LongWrites.{long_text};
ghost use Rattle.vector_handles.specs.Names.{Entries};
ghost use Rattle.script_runs.specs.LineRuns.{LineRuns, with_text};
ghost use Rattle.script_runs.specs.Sinks.{PutsAll};

use crate::puts::put_all;
use crate::sink::{Sink, SinkFault};
use crate::stop::Stop;
use cvl_base::{Config, Memory, NoResources};
use sharing::ThreadCount;
use std::alloc::Allocator;
use std::mem::swap;
use std::thread::{Threads, join_mut};
use value_texts::{Piece, Written, pieces_for, put_opening, threads_writing_pieces, write_first};
use vector_handles::{FlatVector, LongWrite};

/// Puts the texts of the pieces in order.
fn put_pieces<A: Allocator, S: Sink>(sink: &mut S, pieces: &[Piece<A>]) -> Result<(), SinkFault>
    requires { (S.seen sink.old).failed_puts < 2 ^ 64 - 1 }
    ensures { PutsAll (S.seen sink.old) (concat pieces.now) result (S.seen sink.new) }
{
    for piece in pieces {
        put_all(sink, piece.text())?;
    }
    Ok(())
}

/// Puts the texts of the ready pieces while other threads write the first of the elements, each after a space, into the spare
/// pieces, as far as they have room. Returns how many pieces these fill, and the other elements.
fn put_and_write<'a, R: Threads + Sync, T: Written + Sync, A: Memory, S: Sink>(
    rt: &R,
    threads: ThreadCount,
    ready: &[Piece<A>],
    xs: &'a [T],
    spare: &mut [Piece<A>],
    sink: &mut S,
) -> (Result<(), SinkFault>, usize, &'a [T])
    requires some { 1 ≤ length spare.old }
    requires few { length spare.old ≤ most_workers }
    requires failures { (S.seen sink.old).failed_puts < 2 ^ 64 - 1 }
    ensures put { PutsAll (S.seen sink.old) (concat ready.now) result.0 (S.seen sink.new) }
    ensures text { concat (take result.1 spare.new) ++ spaced T.text_of result.2.now ≡ spaced T.text_of xs.now }
    ensures within { result.1 ≤ length spare.new }
    ensures as_many { length spare.new ≡ length spare.old }
    ensures shorter { 0 < length xs.now → length result.2.now < length xs.now }
{
    if threads.get() < 2 {
        let put = put_pieces(sink, ready);
        let (count, others) = write_first(rt, xs, spare);
        return (put, count, others);
    }
    let mut write = || -> (usize, &[T])
        requires { IsSync R.row × IsSync T.row × IsSend A.row × (1 ≤ length spare.now) × (length spare.now ≤ most_workers) }
        ensures { (concat (take result.0 spare.exit.now) ++ spaced T.text_of result.1.now ≡ spaced T.text_of xs.entry.now)
            × (result.0 ≤ length spare.exit.now) × (length spare.exit.now ≡ length spare.entry.now)
            × (0 < length xs.entry.now → length result.1.now < length xs.entry.now) }
    { write_first(rt, xs, spare) };
    let mut put = || -> Result<(), SinkFault>
        requires { (S.seen sink.now).failed_puts < 2 ^ 64 - 1 }
        ensures { PutsAll (S.seen sink.entry.now) (concat ready.entry.now) result (S.seen sink.exit.now) }
    { put_pieces(sink, ready) };
    let ((count, others), put) = join_mut(rt, &mut write, &mut put);
    (put, count, others)
}

/// Puts the texts of the elements, each after a space, as many at a time as the pieces that are written at once have room for.
/// There are as many ready pieces as spare ones.
fn put_spaced<R: Threads + Sync, T: Written + Sync, A: Memory, S: Sink>(
    rt: &R,
    threads: ThreadCount,
    xs: &[T],
    ready: &mut Vec<Piece<A>, A>,
    spare: &mut Vec<Piece<A>, A>,
    sink: &mut S,
) -> Result<(), SinkFault>
    requires some { 1 ≤ length ready.old.items }
    requires few { length ready.old.items ≤ most_workers }
    requires as_many { length spare.old.items ≡ length ready.old.items }
    requires failures { (S.seen sink.old).failed_puts < 2 ^ 64 - 1 }
    ensures { PutsAll (S.seen sink.old) (spaced T.text_of xs.now) result (S.seen sink.new) }
{
    let (mut count, mut rest) = write_first(rt, xs, ready);
    while !rest.is_empty() {
        let (put, next, others) = put_and_write(rt, threads, &ready[..count], rest, spare, sink);
        put?;
        swap(ready, spare);
        count = next;
        rest = others;
    }
    put_pieces(sink, &ready[..count])
}

/// Puts the beginning of a vector's text, the other elements, and the end of the line.
fn put_vector<R: Threads + Sync, T: Written + Sync, A: Memory, S: Sink>(
    rt: &R,
    threads: ThreadCount,
    opening: &[u8],
    others: &[T],
    ready: &mut Vec<Piece<A>, A>,
    spare: &mut Vec<Piece<A>, A>,
    sink: &mut S,
) -> Result<(), SinkFault>
    requires some { 1 ≤ length ready.old.items }
    requires few { length ready.old.items ≤ most_workers }
    requires as_many { length spare.old.items ≡ length ready.old.items }
    requires failures { (S.seen sink.old).failed_puts < 2 ^ 64 - 1 }
    ensures { PutsAll (S.seen sink.old) (opening.now ++ spaced T.text_of others.now ++ codes "]\n") result
        (S.seen sink.new) }
{
    put_all(sink, opening)?;
    put_spaced(rt, threads, others, ready, spare, sink)?;
    put_all(sink, b"]\n")
}

/// The name, ` = `, and the beginning of the vector's text, and the other elements.
fn opened<'a, T: Written, A: Memory>(
    alloc: A,
    name: &[u8],
    xs: &'a [T],
) -> Result<(Vec<u8, A>, &'a [T]), NoResources>
    ensures { IfOk result (λ r. r.0.items ++ spaced T.text_of r.1.now ++ codes "]\n"
        ≡ name.now ++ codes " = " ++ vector_text T.text_of xs.now ++ codes "\n") }
{
    let mut text = Vec::new(alloc);
    text.extend_from_slice(name)?;
    text.extend_from_slice(b" = ")?;
    let others = put_opening(xs, &mut text)?;
    Ok((text, others))
}

/// Asks for all memory that the text takes, and then puts it. If some is refused, puts nothing.
fn write_vector<R: Threads + Sync, T: Written + Sync, A: Memory, S: Sink>(
    rt: &R,
    alloc: A,
    config: Config,
    name: &[u8],
    xs: &[T],
    number: u32,
    sink: &mut S,
) -> Result<(), Stop>
    requires { (S.seen sink.old).failed_puts < 2 ^ 64 - 1 }
    ensures { (names : Entries A) → LineRuns number
        (Ok (with_text names (name.now ++ codes " = " ++ vector_text T.text_of xs.now ++ codes "\n"))) names
        (S.seen sink.old) (S.seen sink.new) result }
{
    let Ok((opening, others)) = opened(alloc, name, xs) else {
        return Err(Stop::NoResources { line: number });
    };
    let threads = threads_writing_pieces(config, others.len());
    let (Ok(mut ready), Ok(mut spare)) = (pieces_for(alloc, threads), pieces_for(alloc, threads))
    else {
        return Err(Stop::NoResources { line: number });
    };
    let opening = opening.as_slice();
    match put_vector(rt, threads, opening, others, &mut ready, &mut spare, sink) {
        Ok(()) => Ok(()),
        Err(_) => Err(Stop::WriteFailed { line: number }),
    }
}

/// Puts the text of a write of a long vector, in memory for a part of it. If that is refused, puts nothing.
pub(crate) fn run_long_write<R: Threads + Sync, A: Memory, S: Sink>(
    rt: &R,
    alloc: A,
    write: &LongWrite<'_>,
    number: u32,
    sink: &mut S,
) -> Result<(), Stop>
    requires { (S.seen sink.old).failed_puts < 2 ^ 64 - 1 }
    ensures { (names : Entries A) → LineRuns number (Ok (with_text names (long_text write.now))) names
        (S.seen sink.old) (S.seen sink.new) result }
{
    match write.vector {
        FlatVector::Integers(xs) => {
            write_vector(rt, alloc, write.config, write.name, xs, number, sink)
        }
        FlatVector::Booleans(bs) => {
            write_vector(rt, alloc, write.config, write.name, bs, number, sink)
        }
    }
}
