//! A count that holds the first to count.

use std::sync::atomic::{AtomicBool, AtomicU64, Ordering};
use std::thread::yield_now;

/// The most looks of a held worker at whether it may continue. After each look it lets another thread run: on a busy machine the
/// workers that it waits for may themselves wait for a processor.
const TURNS: u64 = 10_000_000;

/// A count that holds the first to add to it until others have added enough that it has come so far.
#[derive(Drop)]
pub struct Counter {
    count: AtomicU64,
    until: u64,
    is_overdue: AtomicBool,
}

impl Counter {
    pub fn new(until: u64) -> Counter {
        Counter {
            count: AtomicU64::new(0),
            until,
            is_overdue: AtomicBool::new(false),
        }
    }

    /// How far it has come.
    pub fn count(&self) -> u64 {
        self.count.load(Ordering::SeqCst)
    }

    /// Whether a worker waited in vain.
    pub fn is_overdue(&self) -> bool {
        self.is_overdue.load(Ordering::SeqCst)
    }

    /// Counts one time more, and holds the first worker.
    pub fn add(&self) {
        if self.count.fetch_add(1, Ordering::SeqCst) > 0 {
            return;
        }
        for _ in 0..TURNS {
            if self.count() >= self.until {
                return;
            }
            yield_now();
        }
        self.is_overdue.store(true, Ordering::SeqCst);
    }
}
