//! The counts of what was asked of an allocator, which several threads may add to at once.
ghost use Rattle.std.specs.Prelude.{◌≡◌};

use crate::rule::Refusal;
use std::sync::atomic::{AtomicU64, Ordering};

/// The requests, their bytes and the frees so far, and the rule by which requests are refused.
#[derive(Drop)]
pub struct Calls {
    pub refusal: Refusal,
    pub requests: AtomicU64,
    pub bytes: AtomicU64,
    pub refused: AtomicU64,
    pub frees: AtomicU64,
}

impl Calls {
    /// Nothing counted so far.
    pub fn new(refusal: Refusal) -> Calls
        ensures { result.refusal ≡ refusal }
    {
        Calls {
            refusal,
            requests: AtomicU64::new(0),
            bytes: AtomicU64::new(0),
            refused: AtomicU64::new(0),
            frees: AtomicU64::new(0),
        }
    }

    /// Counts a request for so many bytes, and says whether it is refused.
    pub fn refuses(&self, bytes: usize) -> bool {
        let request = self.requests.fetch_add(1, Ordering::SeqCst);
        self.bytes.fetch_add(bytes as u64, Ordering::SeqCst);
        let refused = self.refusal.refuses(request);
        if refused {
            self.refused.fetch_add(1, Ordering::SeqCst);
        }
        refused
    }

    /// Counts a freed block.
    pub fn free(&self) {
        self.frees.fetch_add(1, Ordering::SeqCst);
    }
}
