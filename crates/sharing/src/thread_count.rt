//! A number of threads that no caller can invent.

ghost use Rattle.std.specs.Prelude.{◌≡◌, ◌+◌, ◌≤◌, max, min};
ghost use Rattle.cvl_base.specs.Limits.{most_workers};
ghost use Rattle.sharing.specs.Shares.{first_of_two};

use crate::forks::first_of_two;
use std::marker::Model;

/// How many threads share something, 1 to 64. Only this crate makes one, from a configuration, and a count can only get smaller.
#[derive(Clone, Copy, Debug, PartialEq, Eq)]
pub struct ThreadCount {
    threads: u32,
}

impl Model for ThreadCount {
    ghost use Rattle.std.specs.Prelude.{ℕ, ◌≤◌};
    ghost use Rattle.cvl_base.specs.Limits.{most_workers};

    ghost Value = { ℕ };

    ghost view = { λ count. count.threads };

    ghost invariant = { λ count. (1 ≤ count.threads) × (count.threads ≤ most_workers) };

    ghost inverse = { λ n. record { threads = n } };
}

impl ThreadCount {
    /// This many threads.
    pub(crate) fn new(threads: u32) -> ThreadCount
        requires some { 1 ≤ threads }
        requires most { threads ≤ most_workers }
        ensures { result ≡ threads }
    {
        ThreadCount { threads }
    }

    /// One thread, which shares nothing.
    pub fn one() -> ThreadCount
        ensures { result ≡ 1 }
    {
        ThreadCount { threads: 1 }
    }

    /// The number.
    pub fn get(self) -> usize
        ensures value { result ≡ self }
        ensures least { 1 ≤ result }
        ensures greatest { result ≤ most_workers }
    {
        self.threads as usize
    }

    /// No more threads than there are things to share, and one if there is none.
    pub fn at_most(self, things: usize) -> ThreadCount
        ensures exact { result ≡ max (min self things) 1 }
        ensures no_more { result ≤ self }
    {
        ThreadCount {
            threads: (self.threads as usize).min(things).max(1) as u32,
        }
    }

    /// The threads in two: those that a fork gives to the thread that it starts, and those that the forking one keeps, no fewer.
    pub fn split(self) -> (ThreadCount, ThreadCount)
        requires { 2 ≤ self }
        ensures fewer { result.0 ≡ first_of_two self }
        ensures order { result.0 ≤ result.1 }
        ensures whole { result.0 + result.1 ≡ self }
    {
        let fewer = first_of_two(self.threads as usize) as u32;
        (
            ThreadCount { threads: fewer },
            ThreadCount {
                threads: self.threads - fewer,
            },
        )
    }
}
