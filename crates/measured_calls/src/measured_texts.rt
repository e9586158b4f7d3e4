//! Writing and reading texts, in bytes a second.

use crate::numbers::{next, random};
use crate::timing::Bench;
use call_reader::{put_value, read_nested, read_vector};
use cvl_base::limits::MOST_ELEMENTS;
use cvl_base::{Ints, Refused, Value};
use std::alloc::{AllocError, Global};
use std::io;
use std::rt::Clock;
use std::thread::Threads;
use std::time::{Duration, Instant};

/// How many numbers a case has: as many as a vector may have.
const NUMBERS: usize = 4_194_304;

/// How often to measure a case. The best time counts.
const ROUNDS: usize = 20;

/// Random numbers, all of 32 bits, or each of a random number of bits.
fn random_bits(alloc: Global, are_all_long: bool) -> Result<Vec<i32>, AllocError> {
    let mut numbers = random(alloc, 1, NUMBERS, 0)?;
    if !are_all_long {
        for number in &mut numbers {
            *number = number.wrapping_shr(next(*number).cast_unsigned() >> 27);
        }
    }
    Ok(numbers)
}

/// A vector of such numbers.
fn random_value(alloc: Global, are_all_long: bool) -> Result<Value<Global>, Refused> {
    let numbers = random_bits(alloc, are_all_long)?;
    if numbers.len() > MOST_ELEMENTS {
        return Err(Refused::NoResources);
    }
    Ok(Value::Integers(Ints::from_vec(numbers)))
}

/// The text of a list of lists of eight numbers, from the text of a list.
fn nest_of(alloc: Global, list: &[u8]) -> Result<Vec<u8>, AllocError> {
    let mut nest = Vec::new(alloc);
    let mut spaces: u32 = 0;
    nest.push(b'[')?;
    for byte in list {
        if *byte == b' ' {
            spaces = spaces.wrapping_add(1);
        }
        if *byte == b' ' && spaces % 8 == 0 {
            nest.extend_from_slice(b"] [")?;
        } else {
            nest.push(*byte)?;
        }
    }
    nest.push(b']')?;
    Ok(nest)
}

/// What is measured: a value that is written, a text of numbers that is read, or one of lists of eight numbers.
#[derive(Drop)]
enum Work<'a> {
    Writing(&'a Value<Global>),
    Reading(&'a [u8]),
    ReadingLists(&'a [u8]),
}

/// The time of the work, or the longest of all if it was refused.
fn time_of<R: Clock + Threads + Sync>(
    bench: &Bench<'_, R>,
    work: &Work<'_>,
) -> io::Result<Duration> {
    let (rt, alloc, config) = (bench.rt, bench.alloc, bench.config);
    let start = Instant::now(rt)?;
    let (time, is_done) = match work {
        Work::Writing(value) => {
            let mut text = Vec::new(alloc);
            let done = put_value(rt, alloc, config, value, None, &mut text);
            (start.elapsed(rt)?, done.is_ok())
        }
        Work::Reading(input) => {
            let numbers = read_vector(rt, alloc, config, input);
            (start.elapsed(rt)?, numbers.is_ok())
        }
        Work::ReadingLists(input) => {
            let lists = read_nested(rt, alloc, config, input);
            (start.elapsed(rt)?, lists.is_ok())
        }
    };
    Ok(if is_done { time } else { Duration::MAX })
}

/// Measures the work on so many bytes, of these numbers, and prints its line.
fn measure_work<R: Print + Clock + Threads + Sync>(
    bench: &Bench<'_, R>,
    work: &Work<'_>,
    numbers: &str,
    bytes: usize,
) -> io::Result<()> {
    let mut best = Duration::MAX;
    for _ in 0..ROUNDS {
        best = best.min(time_of(bench, work)?);
    }
    let what = match work {
        Work::Writing(_) => "writing",
        Work::Reading(_) => "reading",
        Work::ReadingLists(_) => "reading lists of eight",
    };
    let rt = bench.rt;
    if best == Duration::MAX {
        return println!(rt; "{what} {numbers}: refused");
    }
    let micros = best.as_micros().max(1);
    let rate = bytes as u128 * 1_000_000 / micros;
    println!(rt; "{what} {numbers}: {rate} bytes a second ({bytes} bytes in {micros} microseconds)")
}

/// Measures writing numbers, all long or of any length, reading what was written without its brackets, and reading it in lists of
/// eight.
fn measure_numbers<R: Print + Clock + Threads + Sync>(
    bench: &Bench<'_, R>,
    numbers: &str,
    are_all_long: bool,
) -> io::Result<()> {
    let (rt, alloc) = (bench.rt, bench.alloc);
    let Ok(value) = random_value(alloc, are_all_long) else {
        return println!(rt; "writing {numbers}: no memory for the numbers");
    };
    let mut text = Vec::new(alloc);
    if put_value(rt, alloc, bench.config, &value, None, &mut text).is_err() {
        return println!(rt; "writing {numbers}: refused");
    }
    measure_work(bench, &Work::Writing(&value), numbers, text.len())?;
    if let [_, input @ .., _] = text.as_slice() {
        measure_work(bench, &Work::Reading(input), numbers, input.len())?;
    }
    match nest_of(alloc, &text) {
        Ok(nest) => measure_work(bench, &Work::ReadingLists(&nest), numbers, nest.len()),
        Err(_) => Ok(()),
    }
}

/// Measures texts of long numbers and of numbers of any length.
pub fn measure<R: Print + Clock + Threads + Sync>(bench: &Bench<'_, R>) -> io::Result<()> {
    measure_numbers(bench, "long numbers", true)?;
    measure_numbers(bench, "numbers of any length", false)
}
