//! Times of calls.

use crate::vectors::{Shape, Vectors, vectors_of};
use crate::{element_calls, pack_calls, permute_calls, scan_calls};
use cvl_base::Config;
use std::alloc::Global;
use std::io;
use std::rt::Clock;
use std::thread::Threads;
use std::time::{Duration, Instant};

/// How often to measure a case. The best time counts.
pub const ROUNDS: usize = 40;

/// What calls are made with.
#[derive(Drop)]
pub struct Bench<'a, R> {
    pub rt: &'a R,
    pub alloc: Global,
    pub config: Config,
}

/// The calls that are measured on vectors of one shape. Each family numbers its cases from 0.
pub enum Family {
    Elementwise,
    Scans,
    Permutes,
    Packs,
}

/// A call of a family, by its number, and the vectors on which it is made.
#[derive(Drop)]
pub struct Case<'a> {
    pub family: &'a Family,
    pub number: u32,
    pub vectors: &'a Vectors,
}

/// What the line of a case begins with, and a number that depends on the result of its call, so that the compiler leaves out no
/// call; none if the call was refused.
pub type Answer = (&'static str, Option<i32>);

/// The last number of a result.
pub fn last<E: Drop>(answer: Result<Vec<i32>, E>) -> Option<i32> {
    let numbers = answer.ok()?;
    numbers.last().copied()
}

/// A case whose answer is the last number of a result.
pub fn ints<E: Drop>(name: &'static str, answer: Result<Vec<i32>, E>) -> Answer {
    (name, last(answer))
}

/// A case whose answer is the last flag of a result as 1 or 0.
pub fn flags<E: Drop>(name: &'static str, answer: Result<Vec<bool>, E>) -> Answer {
    let last = match answer {
        Ok(flags) => Some(i32::from(flags.last().copied().unwrap_or(false))),
        Err(_) => None,
    };
    (name, last)
}

/// Makes the call of a case, if there is one of this number.
fn call<R: Threads + Sync>(bench: &Bench<'_, R>, case: &Case<'_>) -> Option<Answer> {
    match case.family {
        Family::Elementwise => element_calls::call(bench, case),
        Family::Scans => scan_calls::call(bench, case),
        Family::Permutes => permute_calls::call(bench, case),
        Family::Packs => pack_calls::call(bench, case),
    }
}

/// Prints a case's line: its best time, and a number that depends on its result; or that it was refused.
pub fn print_time<R: Print>(
    rt: &R,
    what: &str,
    best: Duration,
    (name, answer): Answer,
) -> io::Result<()> {
    let nanos = best.as_nanos();
    match answer {
        Some(number) => println!(rt; "{name}, {what}: {nanos} ns, answer {number}"),
        None => println!(rt; "{name}, {what}: refused"),
    }
}

/// Measures a case, and prints its line.
fn measure_case<R: Print + Clock + Threads + Sync>(
    bench: &Bench<'_, R>,
    case: &Case<'_>,
    what: &str,
) -> io::Result<()> {
    let mut best = Duration::MAX;
    let mut last: Answer = ("", None);
    for _ in 0..ROUNDS {
        let start = Instant::now(bench.rt)?;
        let Some(answer) = call(bench, case) else {
            return Ok(());
        };
        best = best.min(start.elapsed(bench.rt)?);
        last = answer;
        if last.1.is_none() {
            break;
        }
    }
    print_time(bench.rt, what, best, last)
}

/// Measures the cases of a family from one number up to another, without that, on vectors of a shape, and prints a line for each.
pub fn measure_cases<R: Print + Clock + Threads + Sync>(
    bench: &Bench<'_, R>,
    family: &Family,
    (first, end): (u32, u32),
    shape: &Shape,
) -> io::Result<()> {
    let Ok(vectors) = vectors_of(bench.alloc, shape) else {
        return Ok(());
    };
    let (length, segments) = (vectors.index.len(), vectors.segments.count());
    let words = shape.words;
    let what = format!(in bench.alloc; "{length} elements, {segments} segments{words}")?;
    for number in first..end {
        let case = Case {
            family,
            number,
            vectors: &vectors,
        };
        measure_case(bench, &case, &what)?;
    }
    Ok(())
}
