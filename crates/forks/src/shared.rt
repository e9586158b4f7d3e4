//! Work that is cut in two until there is a part for each thread.

ghost use Rattle.std.specs.Prelude.{◌≡◌, ℕ, ◌+◌, ◌-◌, ◌<◌, ◌≤◌, ◌++◌, List, drop, length, take};
ghost use denote.Param.Send.{IsSync, IsSend};

use sharing::ThreadCount;
use std::thread::{Threads, join_mut};

/// Work over a slice, and over another beside it, of which each of several threads does a part, over a run of both of its own.
///
/// Its meaning is what it needs of the slices by so many threads, what these leave there and return, and what two halves return
/// together. What takes no second slice is given an empty one.
pub trait SharedWork<T, U>: Sized {
    /// What is returned of a part.
    type Told: Send + Drop;

    ghost IsReady: { Self → ℕ → List T → List U → Type 0 };

    ghost Does: { Self → ℕ → List T → List U → List T → List U → Self.Told → Type 0 };

    ghost together: { Self.Told → Self.Told → Self.Told };

    /// The work in two, that of the first few of the threads and that of the others, and how many places of each slice the first
    /// has.
    fn split(
        &self,
        few: usize,
        threads: usize,
        out: &[T],
        beside: &[U],
    ) -> (Self, usize, usize, Self)
        requires some { (1 ≤ few) × (few < threads) }
        requires ready { IsReady self.now threads out.now beside.now }
        ensures within { (result.1 ≤ length out.now) × (result.2 ≤ length beside.now) }
        ensures first { IsReady result.0 few (take result.1 out.now) (take result.2 beside.now) }
        ensures second { IsReady result.3 (threads - few) (drop result.1 out.now) (drop result.2 beside.now) }
        ensures whole { (low high : List T) (low_beside high_beside : List U) (a b : Self.Told)
            → Does result.0 few (take result.1 out.now) (take result.2 beside.now) low low_beside a
            → Does result.3 (threads - few) (drop result.1 out.now) (drop result.2 beside.now) high high_beside b
            → Does self.now threads out.now beside.now (low ++ high) (low_beside ++ high_beside) (together a b) };

    /// Does the part of one thread.
    fn run(&self, out: &mut [T], beside: &mut [U]) -> Self::Told
        requires ready { IsReady self.now 1 out.old beside.old }
        ensures { Does self.now 1 out.old beside.old out.new beside.new result };

    /// What two halves return together.
    fn together(first: Self::Told, second: Self::Told) -> Self::Told
        ensures { result ≡ together first second };
}

/// Does the work on so many threads, of which the calling thread is one; each half of them starts the other threads that it
/// needs. If a thread cannot be started, its part is done in turn.
#[cycle(halves)]
pub fn run_shared<T: Send, U: Send, R: Threads + Sync, W: SharedWork<T, U> + Sync + Drop>(
    rt: &R,
    threads: ThreadCount,
    work: &W,
    out: &mut [T],
    beside: &mut [U],
) -> W::Told
    requires ready { W.IsReady work.now threads out.old beside.old }
    ensures { W.Does work.now threads out.old beside.old out.new beside.new result }
{
    if threads.get() < 2 {
        return work.run(out, beside);
    }
    let (fewer, others) = threads.split();
    let (first, places, more, second) = work.split(fewer.get(), threads.get(), out, beside);
    let (low, high) = out.split_at_mut(places);
    let (low_beside, high_beside) = beside.split_at_mut(more);
    let (first, second) = run_both(
        rt,
        fewer,
        &first,
        low,
        low_beside,
        others,
        &second,
        high,
        high_beside,
    );
    W::together(first, second)
}

/// `run_shared` for two halves, each in a thread of its own.
#[cycle(halves)]
fn run_both<T: Send, U: Send, R: Threads + Sync, W: SharedWork<T, U> + Sync + Drop>(
    rt: &R,
    fewer: ThreadCount,
    first: &W,
    low: &mut [T],
    low_beside: &mut [U],
    others: ThreadCount,
    second: &W,
    high: &mut [T],
    high_beside: &mut [U],
) -> (W::Told, W::Told)
    requires some { (1 ≤ fewer) × (1 ≤ others) }
    requires low { W.IsReady first.now fewer low.old low_beside.old }
    requires high { W.IsReady second.now others high.old high_beside.old }
    ensures low { W.Does first.now fewer low.old low_beside.old low.new low_beside.new result.0 }
    ensures high { W.Does second.now others high.old high_beside.old high.new high_beside.new result.1 }
{
    let mut run_first = || -> W::Told
        requires { IsSync R.row × IsSend T.row × IsSend U.row × IsSync W.row × IsSend W.Told.row × (1 ≤ fewer)
            × W.IsReady first.now fewer low.now low_beside.now }
        ensures { W.Does first.entry.now fewer low.entry.now low_beside.entry.now low.exit.now low_beside.exit.now result }
    { run_shared(rt, fewer, first, low, low_beside) };
    let mut run_second = || -> W::Told
        requires { IsSync R.row × IsSend T.row × IsSend U.row × IsSync W.row × IsSend W.Told.row × (1 ≤ others)
            × W.IsReady second.now others high.now high_beside.now }
        ensures { W.Does second.entry.now others high.entry.now high_beside.entry.now high.exit.now high_beside.exit.now result }
    { run_shared(rt, others, second, high, high_beside) };
    join_mut(rt, &mut run_first, &mut run_second)
}
