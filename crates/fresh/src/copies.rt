//! Copies of one item.
ghost use Rattle.std.specs.Prelude.{◌≡◌, ◌+◌, ◌-◌, ◌≤◌, ◌++◌, [], length, replicate};
ghost use Rattle.std.specs.Vec.{vec_len, vec_capacity};
ghost use Rattle.fresh.specs.Parts.{part};
ghost use Rattle.fresh.specs.Places.{stretch};

use crate::forks::{Writer, extend_in_runs};
use crate::room::Room;
use crate::run::Run;
use sharing::ThreadCount;
use std::alloc::Allocator;
use std::thread::Threads;

/// Writes copies of one item.
#[derive(Drop)]
pub struct Copies<T: Copy> {
    /// The item.
    pub item: T,
    /// How many copies there are in all.
    pub count: usize,
}

impl<T: Copy> Writer<T> for Copies<T> {
    ghost use Rattle.std.specs.Prelude.{replicate};

    ghost whole = { λ c. replicate c.count c.item };

    fn write(&self, run: Run<T>) -> Run<T>
        requires empty { run.items ≡ [] }
        requires within { run.first + run.room ≤ length (replicate self.now.count self.now.item) }
        ensures { result ≡ stretch run.block run.first (part (replicate self.now.count self.now.item) run.first run.room) 0 }
    {
        let count = run.room();
        run.push_copies(self.item, count)
    }
}

/// Appends copies of an item to a vector that has room for them, on at most `threads` threads.
pub fn extend_by_copies<T: Copy + Send + Sync + Drop, R: Threads + Sync, A: Allocator>(
    rt: &R,
    threads: ThreadCount,
    vec: Vec<T, A>,
    item: T,
    more: usize,
) -> Vec<T, A>
    requires { vec_len vec + more ≤ vec_capacity vec }
    ensures items { result.items ≡ vec.items ++ replicate more item }
    ensures len { vec_len result ≡ vec_len vec + more }
    ensures capacity { vec_capacity result ≡ vec_capacity vec }
{
    let count = vec.len() + more;
    let (room, run) = Room::of(vec);
    let run = extend_in_runs(rt, threads, &Copies { item, count }, run, more);
    room.into_vec(run)
}

impl<T: Copy> Run<T> {
    /// Writes the next `count` places by copies of an item.
    pub fn push_copies(mut self, item: T, count: usize) -> Run<T>
        requires { count ≤ self.room }
        ensures { result ≡ stretch self.block self.first (self.items ++ replicate count item) (self.room - count) }
    {
        for _ in 0..count {
            self.push(item);
        }
        self
    }
}
