//! The parts of a text, each written by its own thread into a run of one fresh text.

ghost use Rattle.std.specs.Prelude.{◌≡◌, ℕ, ◌+◌, ◌-◌, ◌^◌, ◌<◌, ◌≤◌, ◌++◌, IfOk, MatchOption, OnOk, OnErr, length, vec_len};
ghost use Rattle.std.specs.List.{flat_map};
ghost use Rattle.value_texts.specs.Parts.{AreCutInTurn, AreParts};

use cvl_base::{Memory, NoResources};
use fresh::{CountedParts, Part, Room, count_parts, extend_in_parts, write_in_parts};
use sharing::ThreadCount;
use std::thread::Threads;

/// Room for what follows the parts of a text: brackets and the end of a line.
const SPARE_BYTES: usize = 64;

/// A part that can be cut in two. Its meaning is also where to cut it for the first of so many threads.
pub trait Cut<T>: Part<T> {
    ghost use Rattle.std.specs.Option.{option_or};

    ghost IsCut: { Self → ℕ → Self → Self → Type 0 };

    /// The part in two, the first of which has about as much to write as each of `parts` equal parts.
    fn cut(self, parts: usize) -> (Self, Self)
        requires { 1 < parts }
        ensures cut { IsCut self parts result.0 result.1 }
        ensures items { Self.items result.0 ++ Self.items result.1 ≡ Self.items self }
        ensures found { (first : ℕ) → option_or (Self.found result.0 first)
            (Self.found result.1 (first + length (Self.items result.0))) ≡ Self.found self first };
}

/// A part of the whole for each thread, with about the same to write in each.
fn parts_of<T, A: Memory, P: Cut<T>>(
    alloc: A,
    threads: ThreadCount,
    whole: P,
) -> Result<Vec<P, A>, NoResources>
    ensures whole { IfOk result (λ parts. AreParts P.items P.found parts.items whole) }
    ensures as_many { IfOk result (λ parts. length parts.items ≡ threads) }
    ensures shares { IfOk result (λ parts. AreCutInTurn P.IsCut whole parts.items) }
{
    let mut parts = Vec::with_capacity(alloc, threads.get())?;
    let mut rest = whole;
    let mut left = threads.get();
    while left > 1 {
        let (front, others) = rest.cut(left);
        parts.push(front)?;
        rest = others;
        left -= 1;
    }
    parts.push(rest)?;
    Ok(parts)
}

/// The items of a whole, written in parts, one for each thread, and the first place whose item has no value; none if there are
/// more than `most` items.
pub fn made_in_parts<T: Send + Sync + Drop, R: Threads + Sync, A: Memory, P: Cut<T> + Sync>(
    rt: &R,
    alloc: A,
    threads: ThreadCount,
    whole: P,
    most: usize,
) -> Result<Option<(Vec<T, A>, Option<usize>)>, NoResources>
    requires { most < 2 ^ 64 - 1 }
    ensures { IfOk result (λ made. MatchOption made (most < length (P.items whole))
        (λ m. (m.0.items ≡ P.items whole) × (m.1 ≡ P.found whole 0) × (vec_len m.0 ≤ most))) }
{
    let parts = parts_of(alloc, threads, whole)?;
    let parts = parts.as_slice();
    let (counts, items) = count_parts(rt, alloc, threads, parts)?;
    if items > most {
        return Ok(None);
    }
    let counts = counts.as_slice();
    let made = write_in_parts(rt, alloc, threads, CountedParts { parts, counts }, items)?;
    Ok(Some(made))
}

/// Appends the text of a whole in parts, one for each thread. The text moves into fresh memory. After a refusal it is as before.
pub(crate) fn put_in_parts<R: Threads + Sync, A: Memory, P: Cut<u8> + Sync>(
    rt: &R,
    alloc: A,
    threads: ThreadCount,
    whole: P,
    text: &mut Vec<u8, A>,
) -> Result<(), NoResources>
    ensures ok { OnOk result (text.new.items ≡ text.old.items ++ P.items whole) }
    ensures err { OnErr result (text.new.items ≡ text.old.items) }
{
    let parts = parts_of(alloc, threads, whole)?;
    put_parts(rt, alloc, threads, parts.as_slice(), text)
}

/// Appends the texts of the parts, at most `threads` of them, in order, each written by a thread of its own. The text moves into
/// fresh memory. After a refusal it is as before.
fn put_parts<R: Threads + Sync, A: Memory, P: Part<u8> + Sync>(
    rt: &R,
    alloc: A,
    threads: ThreadCount,
    parts: &[P],
    text: &mut Vec<u8, A>,
) -> Result<(), NoResources>
    requires few { length parts.now ≤ threads }
    ensures ok { OnOk result (text.new.items ≡ text.old.items ++ flat_map P.items parts.now) }
    ensures err { OnErr result (text.new.items ≡ text.old.items) }
{
    let (counts, bytes) = count_parts(rt, alloc, threads, parts)?;
    let places = text.len().saturating_add(bytes).saturating_add(SPARE_BYTES);
    let (room, run) = Room::new(alloc, places)?;
    let run = run.extend_from_slice(text.as_slice());
    let counts = counts.as_slice();
    let (run, _) = extend_in_parts(rt, threads, CountedParts { parts, counts }, run, bytes);
    *text = room.into_vec(run);
    Ok(())
}
