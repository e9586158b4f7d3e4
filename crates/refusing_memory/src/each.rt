//! Runs a piece of work again and again, with another request refused in each run.
ghost use Rattle.std.specs.Prelude.{IfOk, ◌≤◌, ◌<◌};

use crate::Refusing;
use crate::rule::Refusal;
use cvl_base::memory::Memory;

/// The most runs that [`refuse_each`] makes before it gives up.
pub const MOST_RUNS: u64 = 10_000;

/// What [`refuse_each`] found wrong. A run is named by its number, counted from 0, which is also that of the request that it
/// refused.
#[derive(Clone, Copy, PartialEq, Eq, Debug)]
pub enum Flaw {
    /// The answer of this run was not allowed.
    WrongAnswer(u64),
    /// Some block that this run was granted was not freed.
    Leak(u64),
    /// The last of [`MOST_RUNS`] runs still met a refusal.
    NoEnd,
}

/// Runs `work` under `rule(0)`, `rule(1)` and so on, until a run meets no refusal, and returns the number of runs.
///
/// `rule` is `Refusal::Only`, so that each request in turn is refused alone, or `Refusal::From`, so that all from there on are.
/// `allowed` gets the answer of each run, and whether any request was refused in it. Under `Refusal::Only` a run with a refusal
/// may still have the right answer, since a collection that is refused much memory may ask for less.
///
/// The work is a call of a function that is generic over its memory and returns plain data, as `|heap| sum_of_squares(heap, 9)`,
/// so that it frees whatever it allocates before it returns.
pub fn refuse_each<B, T, N, W, C>(inner: B, rule: N, work: W, allowed: C) -> Result<u64, Flaw>
where
    B: Memory,
    T: Drop,
    N: Fn(u64) -> Refusal + Drop,
    W: Fn(&Refusing<B>) -> T + Drop,
    C: Fn(&T, bool) -> bool + Drop,
    requires rule { N.IsAlwaysCallable rule }
    requires work { W.IsAlwaysCallable work }
    requires allowed { C.IsAlwaysCallable allowed }
    ensures { IfOk result (λ runs. (1 ≤ runs) × (runs ≤ MOST_RUNS)) }
{
    for run in 0..MOST_RUNS {
        let heap = Refusing::new(rule(run), inner);
        let answer = work(&heap);
        let refused = heap.refused() > 0;
        if !allowed(&answer, refused) {
            return Err(Flaw::WrongAnswer(run));
        }
        if heap.held() > 0 {
            return Err(Flaw::Leak(run));
        }
        if !refused {
            return Ok(run + 1);
        }
    }
    Err(Flaw::NoEnd)
}

/// Whether `work` answers `right`, or `refused` where it was refused memory. The number of its requests, or what is wrong.
///
/// Each of its requests is refused alone, and then with all that follow it. In the first case either answer is allowed.
pub fn withstands_refusals<B, T, W>(inner: B, work: W, right: T, refused: T) -> Result<u64, Flaw>
where
    B: Memory,
    T: PartialEq + Drop,
    W: Fn(&Refusing<B>) -> T + Drop,
    requires { W.IsAlwaysCallable work }
    ensures { IfOk result (λ requests. requests < MOST_RUNS) }
{
    refuse_each(inner, Refusal::Only, &work, |answer, met| {
        *answer == right || met && *answer == refused
    })?;
    let runs = refuse_each(inner, Refusal::From, &work, |answer, met| {
        if met {
            *answer == refused
        } else {
            *answer == right
        }
    })?;
    Ok(runs - 1)
}
