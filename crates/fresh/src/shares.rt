//! A share of the places of a fresh vector, which is cut in two until there is a part for each thread.

ghost use Rattle.std.specs.Prelude.{◌≡◌, ℕ, ◌+◌, ◌-◌, ◌<◌, ◌≤◌, List, [], ◌++◌, Option, IfOk, length};
ghost use Rattle.std.specs.Option.{option_or};
ghost use Rattle.fresh.specs.Places.{stretch, with_items};
ghost use Rattle.sharing.specs.Shares.{first_of_two};
ghost use denote.Param.Send.{IsSync, IsSend};

use crate::room::Room;
use crate::run::Run;
use crate::starts::Starts;
use sharing::ThreadCount;
use std::alloc::{AllocError, Allocator};
use std::thread::Threads;

/// What some neighbouring places are written from, in one or more parts.
///
/// Its meaning depends on the first of its places and on their number: whether it is a share of these places, the items that it
/// writes there, the first place of them whose item has no value, if it looks for one, and how many of them the first of its
/// parts have where it is cut in two. It has at least one part.
pub trait Share<T>: Sized {
    ghost IsOf: { Self → ℕ → ℕ → Type 0 };

    ghost items: { Self → ℕ → ℕ → List T };

    ghost found: { Self → ℕ → ℕ → Option ℕ };

    ghost parts: { Self → ℕ };

    ghost IsSplit: { Self → ℕ → ℕ → ℕ → Type 0 };

    /// The number of parts, each of which one thread writes.
    fn count(&self) -> usize
        ensures { result ≡ parts self.now };

    /// The share in two: the parts of the thread that a fork starts, and those of the one that forks; and how many of the places
    /// the first has.
    fn split(self, first: usize, room: usize) -> (Self, usize, Self)
        requires some { 2 ≤ parts self }
        requires places { IsOf self first room }
        ensures parts { (1 ≤ parts result.0) × (1 ≤ parts result.2) × (parts result.0 + parts result.2 ≡ parts self) }
        ensures fewer { parts result.0 ≡ first_of_two (parts self) }
        ensures split { IsSplit self first room result.1 }
        ensures within { result.1 ≤ room }
        ensures front { IsOf result.0 first result.1 }
        ensures back { IsOf result.2 (first + result.1) (room - result.1) }
        ensures items { items self first room ≡ items result.0 first result.1
            ++ items result.2 (first + result.1) (room - result.1) }
        ensures found { found self first room ≡ option_or (found result.0 first result.1)
            (found result.2 (first + result.1) (room - result.1)) };

    /// Writes the one part into an empty run of the share's places, and returns the first place whose item has no value.
    fn write(self, run: Run<T>) -> (Run<T>, Option<usize>)
        requires one { parts self < 2 }
        requires empty { run.items ≡ [] }
        requires places { IsOf self run.first run.room }
        ensures run { result.0 ≡ stretch run.block run.first (items self run.first run.room) 0 }
        ensures found { result.1 ≡ found self run.first run.room };

    ghost long: { (s : Self) (first room : ℕ) → IsOf s first room → length (items s first room) ≡ room };
}

/// Writes an empty run of the share's places, each part by a thread of its own; where none can be made the parts are written in
/// turn.
#[cycle(parts)]
pub(crate) fn write_whole<T: Send + Drop, R: Threads + Sync, S: Share<T> + Send + Drop>(
    rt: &R,
    starts: Starts,
    share: S,
    run: Run<T>,
) -> (Run<T>, Option<usize>)
    requires empty { run.items ≡ [] }
    requires places { S.IsOf share run.first run.room }
    ensures run { result.0 ≡ stretch run.block run.first (S.items share run.first run.room) 0 }
    ensures found { result.1 ≡ S.found share run.first run.room }
{
    if share.count() < 2 {
        return share.write(run);
    }
    let (low, middle, high) = share.split(run.first(), run.room());
    let (front, back) = run.split_at(middle);
    let (front, back) = write_both(rt, starts, low, front, high, back);
    (front.0.joined(back.0), front.1.or(back.1))
}

/// `write_whole` for two runs, each in a thread of its own.
#[cycle(parts)]
fn write_both<T: Send + Drop, R: Threads + Sync, S: Share<T> + Send + Drop>(
    rt: &R,
    starts: Starts,
    low: S,
    front: Run<T>,
    high: S,
    back: Run<T>,
) -> ((Run<T>, Option<usize>), (Run<T>, Option<usize>))
    requires some { (1 ≤ S.parts low) × (1 ≤ S.parts high) }
    requires empty { (front.items ≡ []) × (back.items ≡ []) }
    requires front { S.IsOf low front.first front.room }
    requires back { S.IsOf high back.first back.room }
    ensures front { result.0.0 ≡ stretch front.block front.first (S.items low front.first front.room) 0 }
    ensures front_found { result.0.1 ≡ S.found low front.first front.room }
    ensures back { result.1.0 ≡ stretch back.block back.first (S.items high back.first back.room) 0 }
    ensures back_found { result.1.1 ≡ S.found high back.first back.room }
{
    let write_front = move || -> (Run<T>, Option<usize>)
        requires { IsSync R.row × IsSend S.row × IsSend T.row × (front.items ≡ []) × S.IsOf low front.first front.room }
        ensures run { result.0 ≡ stretch front.block front.first (S.items low front.first front.room) 0 }
        ensures found { result.1 ≡ S.found low front.first front.room }
    { write_whole(rt, starts, low, front) };
    let write_back = move || -> (Run<T>, Option<usize>)
        requires { IsSync R.row × IsSend S.row × IsSend T.row × (back.items ≡ []) × S.IsOf high back.first back.room }
        ensures run { result.0 ≡ stretch back.block back.first (S.items high back.first back.room) 0 }
        ensures found { result.1 ≡ S.found high back.first back.room }
    { write_whole(rt, starts, high, back) };
    starts.both(rt, write_front, write_back)
}

/// Writes the next places of a run, as many as the share has, behind the items that it has, each part of the share by a thread
/// of its own. The share has at most `threads` parts. It returns the first place whose item has no value.
pub fn extend_in_parts<T: Send + Drop, R: Threads + Sync, S: Share<T> + Send + Drop>(
    rt: &R,
    threads: ThreadCount,
    share: S,
    run: Run<T>,
    room: usize,
) -> (Run<T>, Option<usize>)
    requires few { S.parts share ≤ threads }
    requires within { room ≤ run.room }
    requires places { S.IsOf share (run.first + length run.items) room }
    ensures run { result.0 ≡ with_items run (S.items share (run.first + length run.items) room) }
    ensures found { result.1 ≡ S.found share (run.first + length run.items) room }
{
    let written = run.len() - run.room();
    let (front, empty) = run.split_at(written);
    let (middle, back) = empty.split_at(room);
    let (middle, found) = write_whole(rt, Starts::ByStd, share, middle);
    (front.joined(middle).joined(back), found)
}

/// A vector of so many places, all of which a share writes, each part by a thread of its own, and the first place whose item
/// has no value. The share has at most `threads` parts.
pub fn write_in_parts<T: Send + Drop, R: Threads + Sync, A: Allocator, S: Share<T> + Send + Drop>(
    rt: &R,
    alloc: A,
    threads: ThreadCount,
    share: S,
    places: usize,
) -> Result<(Vec<T, A>, Option<usize>), AllocError>
    requires few { S.parts share ≤ threads }
    requires places { S.IsOf share 0 places }
    ensures items { IfOk result (λ r. r.0.items ≡ S.items share 0 places) }
    ensures found { IfOk result (λ r. r.1 ≡ S.found share 0 places) }
{
    let (room, run) = Room::new(alloc, places)?;
    let (run, found) = write_whole(rt, Starts::ByStd, share, run);
    Ok((room.into_vec(run), found))
}
