//! Partitions on several threads.

ghost use Rattle.std.specs.Prelude.{◌%◌};

use cvl_base::{Memory, NoResources};
use digit_partitions::{Digit, partition_by_threads};
use sharing::ThreadCount;
use std::thread::Threads;

/// The last decimal digit.
#[derive(Drop)]
struct LastDigit;

impl Digit<u32> for LastDigit {
    ghost use Rattle.std.specs.Prelude.{◌%◌};

    ghost digit = { λ d x. x % 10 };

    ghost digits = { λ d. 10 };

    fn count(&self) -> usize {
        10
    }

    fn of(&self, element: &u32) -> usize {
        (*element % 10) as usize
    }
}

/// Whether these are the numbers from 0 on, by their last digit: 0, 10, 20 and so on, then 1, 11 and so on.
fn are_by_last_digit(numbers: &[u32]) -> bool {
    let mut expected = 0;
    for number in numbers {
        if *number as usize != expected {
            return false;
        }
        expected = if numbers.len().saturating_sub(10) > expected {
            expected + 10
        } else {
            expected % 10 + 1
        };
    }
    true
}

/// Whether the numbers below one are put in the order of their last digit.
pub fn are_parted<R: Threads + Sync, A: Memory>(
    rt: &R,
    heap: A,
    threads: ThreadCount,
    length: u16,
) -> Result<bool, NoResources> {
    let mut numbers = vec![in heap; 0; usize::from(length)]?;
    for k in 0..numbers.len() {
        numbers[k] = k as u32;
    }
    let mut room = vec![in heap; 0; usize::from(length)]?;
    partition_by_threads(rt, heap, threads, &LastDigit, &mut numbers, &mut room)?;
    Ok(are_by_last_digit(&numbers))
}
