//! The text of a long vector, made piece by piece in memory that is used again.

ghost use Rattle.std.specs.Prelude.{◌≡◌, ◌+◌, ◌-◌, ◌*◌, ◌<◌, ◌≤◌, ◌++◌, ◌/◌, [], IfOk, length, max, min, take, vec_capacity};
ghost use Rattle.std.specs.List.{concat};
ghost use Rattle.std.specs.Thread.{IsSend, IsSync};
ghost use Rattle.cvl_base.specs.Limits.{most_workers};
ghost use Rattle.value_texts.specs.declared.pieces.TheConstants.{PIECE_BYTES};
ghost use Rattle.value_texts.specs.Texts.{spaced};

use crate::vector_text::{PAGE_BYTES, put_spaced_alone};
use crate::written::{MOST_TEXT_BYTES, Written};
use cvl_base::{Config, Memory, NoResources};
use sharing::{ThreadCount, all_workers, first_of_two};
use std::alloc::Allocator;
use std::marker::Model;
use std::thread::{Threads, join_mut};

/// How many elements' texts a piece has room for. A thread writes them some 35 times as long as it takes to start it, so that the
/// starts of threads for piece after piece cost little.
const PIECE_ELEMENTS: usize = 65_536;

/// How many threads share a text at most. More would write it no sooner than one of them puts it.
const MOST_THREADS: usize = 16;

/// The most bytes of a piece.
const PIECE_BYTES: usize = PIECE_ELEMENTS * (MOST_TEXT_BYTES + 1);

/// The texts of at most 65,536 neighbouring elements with a space before each, in memory with room for them, which is used again.
#[derive(Drop)]
pub struct Piece<A: Allocator> {
    text: Vec<u8, A>,
    ghost room: { PIECE_BYTES ≤ vec_capacity text },
}

impl<A: Allocator> Model for Piece<A> {
    ghost use Rattle.std.specs.Prelude.{ℕ, List};

    ghost Value = { List ℕ };

    ghost view = { λ piece. piece.text.items };
}

impl<A: Allocator> Piece<A> {
    /// A piece without text, and room for its 786,432 bytes.
    fn new(alloc: A) -> Result<Piece<A>, NoResources>
        ensures { IfOk result (λ piece. piece ≡ []) }
    {
        Ok(Piece {
            text: Vec::with_capacity(alloc, PIECE_BYTES)?,
        })
    }

    /// The text.
    pub fn text(&self) -> &[u8]
        ensures { result.now ≡ self.now }
    {
        self.text.as_slice()
    }

    /// Writes the texts of these elements in the place of what was there. It asks for no memory.
    fn write<T: Written>(&mut self, xs: &[T])
        requires { length xs.now ≤ PIECE_ELEMENTS }
        ensures { self.new ≡ spaced T.text_of xs.now }
    {
        let mut page = [0; PAGE_BYTES];
        self.text.clear();
        match put_spaced_alone(xs, &mut page, &mut self.text) {
            Ok(()) => (),
            Err(_) => unreachable!(),
        }
    }
}

/// How many threads share the text of so many elements, one of which puts what the others have written: as many as the
/// configuration has workers, but no more than 16, nor than the elements fill pieces.
pub fn threads_writing_pieces(config: Config, elements: usize) -> ThreadCount
    ensures { result ≡ max (min config.workers (min (elements / 65536) 16)) 1 }
{
    all_workers(config).at_most((elements / PIECE_ELEMENTS).min(MOST_THREADS))
}

/// The pieces that so many threads write at once, while one of them puts others: one for each thread but that one, and one where
/// there is no other.
pub fn pieces_for<A: Memory>(
    alloc: A,
    threads: ThreadCount,
) -> Result<Vec<Piece<A>, A>, NoResources>
    ensures exact { IfOk result (λ pieces. length pieces.items ≡ max (threads - 1) 1) }
    ensures few { IfOk result (λ pieces. length pieces.items ≤ most_workers) }
{
    let writers = (threads.get() - 1).max(1);
    let mut pieces = Vec::with_capacity(alloc, writers)?;
    while pieces.len() < writers {
        pieces.push(Piece::new(alloc)?)?;
    }
    Ok(pieces)
}

/// Writes the texts of the elements into the pieces, as many as a piece has room for into each but the last, and each by a thread
/// of its own; where none can be made they are written in turn.
#[cycle(pieces)]
fn write_pieces<T: Written + Sync, R: Threads + Sync, A: Memory>(
    rt: &R,
    xs: &[T],
    pieces: &mut [Piece<A>],
)
    requires few { length pieces.old ≤ most_workers }
    requires room { length xs.now ≤ PIECE_ELEMENTS * length pieces.old }
    ensures { concat pieces.new ≡ spaced T.text_of xs.now }
{
    if pieces.len() < 2 {
        if let Some(piece) = pieces.first_mut() {
            piece.write(xs);
        }
        return;
    }
    let few = first_of_two(pieces.len());
    let (front, back) = xs.split_at(xs.len().min(PIECE_ELEMENTS * few));
    let (low, high) = pieces.split_at_mut(few);
    write_both(rt, front, low, back, high);
}

/// `write_pieces` for two parts of the elements, each in a thread of its own.
#[cycle(pieces)]
fn write_both<T: Written + Sync, R: Threads + Sync, A: Memory>(
    rt: &R,
    front: &[T],
    low: &mut [Piece<A>],
    back: &[T],
    high: &mut [Piece<A>],
)
    requires some { (1 ≤ length low.old) × (1 ≤ length high.old) }
    requires few { length low.old + length high.old ≤ most_workers }
    requires front { length front.now ≤ PIECE_ELEMENTS * length low.old }
    requires back { length back.now ≤ PIECE_ELEMENTS * length high.old }
    ensures low { concat low.new ≡ spaced T.text_of front.now }
    ensures high { concat high.new ≡ spaced T.text_of back.now }
{
    let mut write_low = ||
        requires { IsSync R.row × IsSync T.row × IsSend A.row × (length low.now ≤ most_workers)
            × (length front.now ≤ PIECE_ELEMENTS * length low.now) }
        ensures { concat low.exit.now ≡ spaced T.text_of front.entry.now }
    { write_pieces(rt, front, low) };
    let mut write_high = ||
        requires { IsSync R.row × IsSync T.row × IsSend A.row × (length high.now ≤ most_workers)
            × (length back.now ≤ PIECE_ELEMENTS * length high.now) }
        ensures { concat high.exit.now ≡ spaced T.text_of back.entry.now }
    { write_pieces(rt, back, high) };
    join_mut(rt, &mut write_low, &mut write_high);
}

/// Writes the texts of the first elements, with a space before each, as many as the pieces have room for, and returns how many of
/// the pieces it wrote and the other elements. Each thread but the one that calls is started for a piece. It asks for no memory.
pub fn write_first<'a, T: Written + Sync, R: Threads + Sync, A: Memory>(
    rt: &R,
    xs: &'a [T],
    pieces: &mut [Piece<A>],
) -> (usize, &'a [T])
    requires some { 1 ≤ length pieces.old }
    requires few { length pieces.old ≤ most_workers }
    ensures text { concat (take result.0 pieces.new) ++ spaced T.text_of result.1.now ≡ spaced T.text_of xs.now }
    ensures within { result.0 ≤ length pieces.new }
    ensures shorter { 0 < length xs.now → length result.1.now < length xs.now }
{
    let (front, others) = xs.split_at(xs.len().min(PIECE_ELEMENTS * pieces.len()));
    let used = front.len().div_ceil(PIECE_ELEMENTS);
    let (written, _) = pieces.split_at_mut(used);
    write_pieces(rt, front, written);
    (used, others)
}
