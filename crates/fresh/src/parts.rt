//! Parts of a list, each counted and then written by a thread of its own.

ghost use Rattle.std.specs.Prelude.{◌≡◌, ◌+◌, ◌-◌, ◌<◌, ◌≤◌, ◌^◌, [], IfOk, length, min, sum};
ghost use Rattle.std.specs.List.{flat_map};
ghost use Rattle.fresh.specs.Counted.{item_counts, found_in};
ghost use Rattle.fresh.specs.Parts.{part};
ghost use Rattle.fresh.specs.Places.{stretch};

use crate::forks::{Writer, write_in_runs};
use crate::run::Run;
use crate::shares::Share;
use sharing::{ThreadCount, first_of_two};
use std::alloc::{AllocError, Allocator};
use std::marker::PhantomData;
use std::thread::Threads;

/// A part of a list, whose items are counted before they are written. Its meaning is its items, and the first place whose item
/// has no value, if it looks for one, given the place of its first item.
pub trait Part<T>: Copy {
    ghost use Rattle.std.specs.Prelude.{ℕ, List, Option};

    ghost items: { Self → List T };

    ghost found: { Self → ℕ → Option ℕ };

    /// How many items the part has.
    fn count(&self) -> usize
        ensures { result ≡ length (items self.now) };

    /// Writes the part into an empty run of as many places, and returns the first place whose item has no value.
    fn write(&self, run: Run<T>) -> (Run<T>, Option<usize>)
        requires empty { run.items ≡ [] }
        requires room { run.room ≡ length (items self.now) }
        ensures run { result.0 ≡ stretch run.block run.first (items self.now) 0 }
        ensures found { result.1 ≡ found self.now run.first };
}

/// Writes how many items each part has.
#[derive(Drop)]
struct Counts<'a, T, P> {
    parts: &'a [P],
    items: PhantomData<T>,
}

impl<'a, T, P: Part<T>> Writer<usize> for Counts<'a, T, P> {
    ghost use Rattle.std.specs.Prelude.{◌+◌, ◌≤◌, []};
    ghost use Rattle.fresh.specs.Parts.{part};
    ghost use Rattle.fresh.specs.Places.{stretch};

    ghost whole = { λ c. item_counts P.items c.parts.now };

    fn write(&self, run: Run<usize>) -> Run<usize>
        requires empty { run.items ≡ [] }
        requires within { run.first + run.room ≤ length (item_counts P.items self.now.parts.now) }
        ensures { result ≡ stretch run.block run.first (part (item_counts P.items self.now.parts.now) run.first run.room) 0 }
    {
        let count = |part: P| -> usize
            ensures { result ≡ length (P.items part) }
        { part.count() };
        run.fill_by(self.parts, count)
    }
}

/// The sum of the counts, or the greatest number if that is less.
fn total(counts: &[usize]) -> usize
    ensures { result ≡ min (sum counts.now) (2 ^ 64 - 1) }
{
    let mut total: usize = 0;
    for count in counts {
        total = total.saturating_add(*count);
    }
    total
}

/// How many items each part has, counted on at most `threads` threads, and how many all have, or the greatest number if that is
/// less.
#[tactic(auto, using(crate::proofs::PartWalk::counted))]
pub fn count_parts<T: Sync, R: Threads + Sync, A: Allocator, P: Part<T> + Sync>(
    rt: &R,
    alloc: A,
    threads: ThreadCount,
    parts: &[P],
) -> Result<(Vec<usize, A>, usize), AllocError>
    ensures counts { IfOk result (λ r. r.0.items ≡ item_counts P.items parts.now) }
    ensures total { IfOk result (λ r. r.1 ≡ min (length (flat_map P.items parts.now)) (2 ^ 64 - 1)) }
{
    let items: PhantomData<T> = PhantomData;
    let counts = write_in_runs(rt, alloc, threads, &Counts { parts, items }, parts.len())?;
    let total = total(counts.as_slice());
    Ok((counts, total))
}

/// Parts of a list, and how many items each has.
#[derive(Drop)]
pub struct CountedParts<'a, P> {
    /// The parts.
    pub parts: &'a [P],
    /// How many items each has.
    pub counts: &'a [usize],
}

impl<'a, T, P: Part<T>> Share<T> for CountedParts<'a, P> {
    ghost use Rattle.std.specs.Prelude.{◌≡◌, length, take};
    ghost use Rattle.std.specs.List.{flat_map};
    ghost use Rattle.std.proofs.Common.{sym};
    ghost use Rattle.fresh.specs.Counted.{item_counts, found_in};
    ghost use Rattle.sharing.specs.Shares.{first_of_two};

    ghost IsOf = { λ s first room. (s.counts.now ≡ item_counts P.items s.parts.now)
        × (room ≡ length (flat_map P.items s.parts.now)) };

    ghost items = { λ s first room. flat_map P.items s.parts.now };

    ghost found = { λ s first room. found_in P.items P.found s.parts.now first };

    ghost parts = { λ s. length s.parts.now };

    ghost IsSplit = { λ s first room places. places ≡ length (flat_map P.items (take (first_of_two (length s.parts.now))
        s.parts.now)) };

    ghost long = { λ s first room is. sym is.1 };

    fn count(&self) -> usize {
        self.parts.len()
    }

    fn split(
        self,
        _first: usize,
        _room: usize,
    ) -> (CountedParts<'a, P>, usize, CountedParts<'a, P>) {
        let few = first_of_two(self.parts.len());
        let (low, high) = self.parts.split_at(few);
        let (low_counts, high_counts) = self.counts.split_at(few);
        let low = CountedParts {
            parts: low,
            counts: low_counts,
        };
        let high = CountedParts {
            parts: high,
            counts: high_counts,
        };
        (low, total(low_counts), high)
    }

    fn write(self, run: Run<T>) -> (Run<T>, Option<usize>)
        requires one { length self.parts.now < 2 }
        requires empty { run.items ≡ [] }
        requires places { (self.counts.now ≡ item_counts P.items self.parts.now)
            × (run.room ≡ length (flat_map P.items self.parts.now)) }
        ensures run { result.0 ≡ stretch run.block run.first (flat_map P.items self.entry.parts.now) 0 }
        ensures found { result.1 ≡ found_in P.items P.found self.entry.parts.now run.first }
    {
        match self.parts.split_first() {
            Some((part, _others)) => part.write(run),
            None => (run, None),
        }
    }
}
