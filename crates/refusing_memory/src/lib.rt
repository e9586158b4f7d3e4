//! Memory for tests: an allocator that counts the requests for memory and refuses those that a test names.
//!
//! A test hands `&Refusing` to a function that is generic over its memory, or has [`withstands_refusals`] refuse each of
//! its requests in turn:
//!
//! ```text
//! withstands_refusals(rt.alloc(), |heap| sum_of_squares(heap, 9), Ok(285), Err(AllocError))?;
//! ```
//!
//! Proved: the allocator is safe, a block goes back only to the allocator that gave it, in any thread, and a rule refuses the
//! numbers that it says. That the counts are those of the requests and the frees, also across threads, and that no block is kept,
//! is tested in `test_runs`: no clause speaks of a number that other threads change.
#![tactic(auto)]

ghost use Rattle.std.specs.Prelude.{◌≡◌};

use std::alloc::{AllocError, Allocator};
use std::sync::atomic::Ordering;

mod counting;
mod each;
mod rule;

use counting::Calls;
pub use each::{Flaw, MOST_RUNS, refuse_each, withstands_refusals};
pub use rule::Refusal;

/// An allocator that passes each request on to `inner`, except for those that its rule refuses, and counts them all, and their
/// bytes.
#[derive(Drop)]
pub struct Refusing<B: Allocator> {
    inner: B,
    calls: Calls,
}

impl<B: Allocator> Refusing<B> {
    ghost use Rattle.refusing_memory.specs.Rules.{rule_of};

    /// An allocator over `inner` that refuses as `refusal` says.
    pub fn new(refusal: Refusal, inner: B) -> Refusing<B>
        ensures { rule_of result ≡ refusal }
    {
        Refusing {
            inner,
            calls: Calls::new(refusal),
        }
    }

    /// An allocator over `inner` that refuses nothing, and counts.
    pub fn none(inner: B) -> Refusing<B>
        ensures { rule_of result ≡ Refusal.Never }
    {
        Refusing::new(Refusal::Never, inner)
    }

    /// How many requests were made so far, granted or refused.
    pub fn requests(&self) -> u64 {
        self.calls.requests.load(Ordering::SeqCst)
    }

    /// How many bytes the requests so far asked for in all, granted or refused, modulo 2^64.
    pub fn bytes(&self) -> u64 {
        self.calls.bytes.load(Ordering::SeqCst)
    }

    /// How many requests were refused so far by the rule.
    pub fn refused(&self) -> u64 {
        self.calls.refused.load(Ordering::SeqCst)
    }

    /// How many blocks were freed so far.
    pub fn frees(&self) -> u64 {
        self.calls.frees.load(Ordering::SeqCst)
    }

    /// How many requests were granted whose block is not yet freed.
    pub fn held(&self) -> u64 {
        let granted = self.requests().wrapping_sub(self.refused());
        granted.wrapping_sub(self.frees())
    }
}

unsafe impl<B: Allocator> Allocator for Refusing<B> {
    ghost dealloc_token = { λ heap ty ptr. B.dealloc_token heap.inner ty ptr };

    fn allocate(&self, size: usize, align: usize) -> Result<*mut u8, AllocError> {
        if self.calls.refuses(size) {
            return Err(AllocError);
        }
        self.inner.allocate(size, align)
    }

    unsafe fn deallocate(&self, ptr: *mut u8, size: usize, align: usize) {
        self.calls.free();
        self.inner.deallocate(ptr, size, align);
    }
}
