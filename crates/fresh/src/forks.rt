//! A vector written in runs, on several threads.

ghost use Rattle.std.specs.Prelude.{◌≡◌, ℕ, ◌+◌, ◌<◌, ◌≤◌, List, [], Option, IfOk, length};
ghost use Rattle.fresh.specs.Found.{first_without};
ghost use Rattle.fresh.specs.Places.{stretch, with_items};
ghost use Rattle.fresh.specs.Parts.{part};

use crate::room::Room;
use crate::run::Run;
use crate::shares::{Share, extend_in_parts, write_in_parts, write_whole};
use crate::starts::Starts;
use sharing::{ThreadCount, first_of_two, share_of_first};
use std::alloc::{AllocError, Allocator};
use std::thread::Threads;

/// Writes any run of a vector. Its meaning is the list of all the items.
pub trait Writer<T> {
    ghost whole: { Self → List T };

    /// Writes all places of an empty run.
    fn write(&self, run: Run<T>) -> Run<T>
        requires empty { run.items ≡ [] }
        requires within { run.first + run.room ≤ length (whole self.now) }
        ensures { result ≡ stretch run.block run.first (part (whole self.now) run.first run.room) 0 };
}

/// Writes any run of a vector, some items of which may have no value, and finds the first such item. Its meaning is the list of
/// all items as they are written, whatever is written for those without a value, the list of the values, and how many of some
/// places from one on the first few of some threads write.
pub trait CheckedWriter<T> {
    ghost whole: { Self → List T };

    ghost values: { Self → List (Option T) };

    ghost IsShare: { Self → ℕ → ℕ → ℕ → ℕ → ℕ → Type 0 };

    /// Writes all places of an empty run, and returns the first of them whose item has no value.
    fn write(&self, run: Run<T>) -> (Run<T>, Option<usize>)
        requires empty { run.items ≡ [] }
        requires within { run.first + run.room ≤ length (whole self.now) }
        ensures run { result.0 ≡ stretch run.block run.first (part (whole self.now) run.first run.room) 0 }
        ensures found { result.1 ≡ first_without run.first (part (values self.now) run.first run.room) };

    /// How many of `room` places from place `first` on the first `few` of `threads` threads write.
    fn share(&self, first: usize, room: usize, few: usize, threads: usize) -> usize
        requires some { 1 ≤ threads }
        requires no_more { few ≤ threads }
        requires places { first + room ≤ length (whole self.now) }
        ensures exact { IsShare self.now first room few threads result }
        ensures within { result ≤ room };
}

/// A writer without a search for items without a value. Each thread writes as many places.
#[derive(Drop)]
struct Unchecked<'a, W> {
    writer: &'a W,
}

impl<'a, T, W: Writer<T>> CheckedWriter<T> for Unchecked<'a, W> {
    ghost use Rattle.std.specs.Prelude.{◌≡◌, []};
    ghost use Rattle.sharing.specs.Shares.{share_of_first};

    ghost whole = { λ w. W.whole w.writer.now };

    ghost values = { λ w. [] };

    ghost IsShare = { λ w first room few threads places. places ≡ share_of_first few threads room };

    fn write(&self, run: Run<T>) -> (Run<T>, Option<usize>)
        requires empty { run.items ≡ [] }
        requires within { run.first + run.room ≤ length (W.whole self.now.writer.now) }
        ensures run { result.0 ≡ stretch run.block run.first (part (W.whole self.now.writer.now) run.first run.room) 0 }
        ensures found { result.1 ≡ first_without {X = T} run.first (part [] run.first run.room) }
    {
        (self.writer.write(run), None)
    }

    fn share(&self, _first: usize, room: usize, few: usize, threads: usize) -> usize {
        share_of_first(few, threads, room)
    }
}

/// The places that a writer writes, in a part for each thread.
#[derive(Drop)]
struct Places<'a, W> {
    writer: &'a W,
    threads: usize,
}

impl<'a, T, W: CheckedWriter<T>> Share<T> for Places<'a, W> {
    ghost use Rattle.std.specs.Prelude.{◌+◌, ◌≤◌, length};
    ghost use Rattle.fresh.specs.Found.{first_without};
    ghost use Rattle.fresh.specs.Parts.{part, length_part};
    ghost use Rattle.sharing.specs.Shares.{first_of_two};

    ghost IsOf = { λ s first room. first + room ≤ length (W.whole s.writer.now) };

    ghost items = { λ s first room. part (W.whole s.writer.now) first room };

    ghost found = { λ s first room. first_without first (part (W.values s.writer.now) first room) };

    ghost parts = { λ s. s.threads };

    ghost IsSplit = { λ s first room places. W.IsShare s.writer.now first room (first_of_two s.threads) s.threads places };

    ghost long = { λ s first room within. length_part (W.whole s.writer.now) first room within };

    fn count(&self) -> usize {
        self.threads
    }

    #[tactic(auto, using(crate::proofs::Halves::parts_both, crate::proofs::FirstWithout::found_in_both))]
    fn split(self, first: usize, room: usize) -> (Places<'a, W>, usize, Places<'a, W>) {
        let Places { writer, threads } = self;
        let few = first_of_two(threads);
        let middle = writer.share(first, room, few, threads);
        let low = Places {
            writer,
            threads: few,
        };
        let high = Places {
            writer,
            threads: threads - few,
        };
        (low, middle, high)
    }

    fn write(self, run: Run<T>) -> (Run<T>, Option<usize>)
        requires one { self.threads < 2 }
        requires empty { run.items ≡ [] }
        requires places { run.first + run.room ≤ length (W.whole self.writer.now) }
        ensures run { result.0 ≡ stretch run.block run.first (part (W.whole self.entry.writer.now) run.first run.room) 0 }
        ensures found { result.1 ≡ first_without run.first (part (W.values self.entry.writer.now) run.first run.room) }
    {
        self.writer.write(run)
    }
}

/// The writer's items as a vector, written by at most `threads` threads, and the first place whose item has no value.
pub fn write_checked_in_runs<
    T: Send + Drop,
    R: Threads + Sync,
    A: Allocator,
    W: CheckedWriter<T> + Sync,
>(
    rt: &R,
    alloc: A,
    threads: ThreadCount,
    writer: &W,
    items: usize,
) -> Result<(Vec<T, A>, Option<usize>), AllocError>
    requires items { items ≡ length (W.whole writer.now) }
    requires values { items ≡ length (W.values writer.now) }
    ensures items { IfOk result (λ r. r.0.items ≡ W.whole writer.now) }
    ensures found { IfOk result (λ r. r.1 ≡ first_without 0 (W.values writer.now)) }
{
    let places = Places {
        writer,
        threads: threads.at_most(items).get(),
    };
    write_in_parts(rt, alloc, threads, places, items)
}

/// The writer's items as a vector, written by at most `threads` threads.
///
/// The calling thread starts one for each run but the last, which it writes itself. With more than eight threads it gives half to
/// the first one that it starts, and so on. If no thread can be started, the runs are written in turn. For one thread, or at most
/// one item, no thread is started.
pub fn write_in_runs<T: Send + Drop, R: Threads + Sync, A: Allocator, W: Writer<T> + Sync>(
    rt: &R,
    alloc: A,
    threads: ThreadCount,
    writer: &W,
    items: usize,
) -> Result<Vec<T, A>, AllocError>
    requires { items ≡ length (W.whole writer.now) }
    ensures { IfOk result (λ v. v.items ≡ W.whole writer.now) }
{
    let threads = threads.at_most(items).get();
    write_runs(rt, alloc, Starts::ByStd, threads, writer, items)
}

/// The same on this many threads, all of which but the calling one `rayon` starts.
pub fn write_in_runs_by_rayon<T: Send + Drop, R: Threads + Sync, A: Allocator, W: Writer<T> + Sync>(
    rt: &R,
    alloc: A,
    threads: usize,
    writer: &W,
    items: usize,
) -> Result<Vec<T, A>, AllocError>
    requires { items ≡ length (W.whole writer.now) }
    ensures { IfOk result (λ v. v.items ≡ W.whole writer.now) }
{
    write_runs(rt, alloc, Starts::ByRayon, threads, writer, items)
}

/// The writer's items as a vector, in a run for each thread.
fn write_runs<T: Send + Drop, R: Threads + Sync, A: Allocator, W: Writer<T> + Sync>(
    rt: &R,
    alloc: A,
    starts: Starts,
    threads: usize,
    writer: &W,
    items: usize,
) -> Result<Vec<T, A>, AllocError>
    requires { items ≡ length (W.whole writer.now) }
    ensures { IfOk result (λ v. v.items ≡ W.whole writer.now) }
{
    if threads < 2 {
        return write_alone(alloc, writer, items);
    }
    let places = Places {
        writer: &Unchecked { writer },
        threads,
    };
    let (room, run) = Room::new(alloc, items)?;
    let (run, _) = write_whole(rt, starts, places, run);
    Ok(room.into_vec(run))
}

/// Writes the next places of a run after its items, each from the writer's item with its number, on at most `threads` threads.
pub fn extend_in_runs<T: Send + Drop, R: Threads + Sync, W: Writer<T> + Sync>(
    rt: &R,
    threads: ThreadCount,
    writer: &W,
    run: Run<T>,
    more: usize,
) -> Run<T>
    requires room { more ≤ run.room }
    requires within { run.first + length run.items + more ≤ length (W.whole writer.now) }
    ensures { result ≡ with_items run (part (W.whole writer.now) (run.first + length run.items) more) }
{
    let places = Places {
        writer: &Unchecked { writer },
        threads: threads.at_most(more).get(),
    };
    let (run, _) = extend_in_parts(rt, threads, places, run, more);
    run
}

/// The writer's items as a vector, written on the calling thread.
pub fn write_alone<T: Drop, A: Allocator, W: Writer<T>>(
    alloc: A,
    writer: &W,
    items: usize,
) -> Result<Vec<T, A>, AllocError>
    requires { items ≡ length (W.whole writer.now) }
    ensures { IfOk result (λ v. v.items ≡ W.whole writer.now) }
{
    let (room, run) = Room::new(alloc, items)?;
    Ok(room.into_vec(writer.write(run)))
}
