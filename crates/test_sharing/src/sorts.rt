//! Orders, ranks and sorts by one thread or several, of keys whose ranks are known from how they are made.

use cvl_base::limits::MOST_PLACES;
use cvl_base::{Memory, NoResources};
use sharing::ThreadCount;
use stable_sorts::{order_shared, rank_shared, sort_in_shared, sort_shared};
use std::thread::Threads;

/// A prime that divides none of the lengths, so that its multiples leave each remainder once.
const STEP: u32 = 7_919;

/// What a room holds before.
const BEFORE: i32 = -7;

/// The rank of place k among n keys: the remainder of k steps.
fn rank_at(k: u32, n: u32) -> u32 {
    if n == 0 {
        return 0;
    }
    k.wrapping_mul(STEP) % n
}

/// How far apart n keys are: as far as they fit, and an odd number, so that they differ in each digit.
fn apart(n: u32) -> i32 {
    let most = i32::MAX.cast_unsigned() / (n / 2 + 1);
    most.saturating_sub(1 - most % 2).cast_signed()
}

/// The key of a rank among n.
fn key_of(rank: u32, n: u32) -> i32 {
    let from_middle = rank.wrapping_sub(n / 2).cast_signed();
    from_middle.wrapping_mul(apart(n))
}

/// Whether the ranks of n keys are those that they were made of.
fn are_ranks(ranks: &[i32], n: u32) -> bool {
    ranks
        .iter()
        .zip(0..n)
        .all(|(rank, k)| rank.cast_unsigned() == rank_at(k, n))
}

/// Whether the order of n keys is the inverse of their ranks.
fn is_order(order: &[i32], n: u32) -> bool {
    order
        .iter()
        .zip(0..n)
        .all(|(place, rank)| rank_at(place.cast_unsigned(), n) == rank)
}

/// Whether each of n keys stands at its rank.
fn are_in_order(keys: &[i32], n: u32) -> bool {
    keys.iter()
        .zip(0..n)
        .all(|(key, rank)| *key == key_of(rank, n))
}

/// No memory if what was asked for left the room as it was, and else a wrong answer.
fn refused(room: &[i32]) -> Result<bool, NoResources> {
    if room.iter().all(|number| *number == BEFORE) {
        Err(NoResources)
    } else {
        Ok(false)
    }
}

/// Whether the ranks, the order and the sort of n keys are right, on at most so many threads; false if n is more than a vector
/// may have.
pub fn are_right<R: Threads + Sync, A: Memory>(
    rt: &R,
    heap: A,
    threads: ThreadCount,
    n: u32,
) -> Result<bool, NoResources> {
    let count = n as usize;
    if count > MOST_PLACES {
        return Ok(false);
    }
    let mut keys = vec![in heap; 0; count]?;
    for k in 0..keys.len() {
        keys[k] = key_of(rank_at(k as u32, n), n);
    }
    let mut ranks = vec![in heap; BEFORE; count]?;
    if rank_shared(rt, heap, threads, &keys, &mut ranks).is_err() {
        return refused(&ranks);
    }
    let mut order = vec![in heap; BEFORE; count]?;
    if order_shared(rt, heap, threads, &keys, &mut order).is_err() {
        return refused(&order);
    }
    let mut sorted = vec![in heap; BEFORE; count]?;
    if sort_shared(rt, heap, threads, &keys, &mut sorted).is_err() {
        return refused(&sorted);
    }
    sort_in_shared(rt, heap, threads, &mut keys)?;
    Ok(
        are_ranks(&ranks, n)
            && is_order(&order, n)
            && are_in_order(&sorted, n)
            && are_in_order(&keys, n),
    )
}
