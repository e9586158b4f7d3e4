//! The doubles of numbers, written by several threads, also by two at one moment, and what you may do with such a vector
//! afterwards; and a vector that a thread leaves early.

ghost use Rattle.std.specs.Prelude.{◌≡◌, ◌+◌, ◌≤◌, [], length, map};
ghost use Rattle.fresh.specs.Parts.{part};
ghost use Rattle.fresh.specs.Places.{stretch};
ghost use Rattle.test_sharing.specs.Doubles.{double};

use crate::counter::Counter;
use cvl_base::{Config, Memory, NoResources};
use fresh::{Room, Run, Writer, write_in_runs};
use refusing_memory::Refusing;
use sharing::{ThreadCount, all_workers};
use std::test::Fail;
use std::thread::Threads;

/// Writes the doubles of numbers, and counts the runs, of which the first one may be held.
#[derive(Drop)]
struct Doubles<'a> {
    numbers: &'a [u32],
    begun: &'a Counter,
}

impl<'a> Writer<u64> for Doubles<'a> {
    ghost whole = { λ d. map double d.numbers.now };

    fn write(&self, run: Run<u64>) -> Run<u64>
        requires empty { run.items ≡ [] }
        requires within { run.first + run.room ≤ length (map double self.now.numbers.now) }
        ensures { result ≡ stretch run.block run.first (part (map double self.now.numbers.now) run.first run.room) 0 }
    {
        self.begun.add();
        run.fill_by(
            self.numbers,
            |x: u32| -> u64
                ensures { result ≡ double x }
            { 2 * u64::from(x) },
        )
    }
}

/// Whether the first values are the doubles of the numbers.
fn are_doubles(values: &[u64], numbers: &[u32]) -> bool {
    values.len() >= numbers.len()
        && values.iter().zip(numbers).all(|(value, number)| value / 2 == u64::from(*number)
            && value % 2 == 0)
}

/// Whether the doubles of so many numbers are right, also once the vector was pushed to, shrunk and cloned.
pub fn are_written<R: Threads + Sync, A: Memory>(
    rt: &R,
    heap: A,
    threads: ThreadCount,
    length: usize,
    begun: &Counter,
) -> Result<bool, NoResources> {
    let numbers: Vec<u32, A> = (0..length).map(|k| (k % 1_000) as u32).collect(heap)?;
    let numbers = numbers.as_slice();
    let writer = Doubles { numbers, begun };
    let mut doubles = write_in_runs(rt, heap, threads, &writer, numbers.len())?;
    let as_long = doubles.capacity() == length;
    doubles.push(1)?;
    doubles.shrink_to_fit();
    let copy = doubles.clone()?;
    Ok(as_long && copy == doubles && copy.last() == Some(&1) && are_doubles(&copy, numbers))
}

/// Whether a room for five items, two of which are written by a thread that stops early, is a vector of these two: one of two
/// runs is written in part and one not at all.
pub fn keeps_what_is_written<A: Memory>(heap: A) -> Result<bool, NoResources> {
    let (room, run) = Room::new(heap, 5)?;
    let (mut front, back) = run.split_at(3);
    front.push(7u8);
    front.push(8);
    let items = room.into_vec(front.joined(back));
    Ok(items.as_slice() == [7, 8].as_slice() && items.capacity() == 5)
}

/// The run that begins first waits until two have begun.
#[test]
fn two_runs_at_one_moment(rt: HostRuntime) -> Result<(), Fail> {
    let heap = Refusing::none(rt.alloc());
    let threads = all_workers(Config::new(1, 2)?);
    let begun = Counter::new(2);
    assert!(rt; are_written(&rt, &heap, threads, 40, &begun)? && !begun.is_overdue());
    Ok(())
}
