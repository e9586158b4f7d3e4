//! An allocator of one's own: here the one of `refusing_memory`, which refuses every request.

use crate::kernels::sums;
use cvl_base::{Config, Memory, Refused};
use refusing_memory::{Refusal, Refusing};
use std::thread::Threads;

/// The sum of two vectors where there is no memory for it.
pub fn is_refused<R: Threads + Sync, A: Memory>(rt: &R, alloc: A, config: Config) -> bool {
    let nothing = Refusing::new(Refusal::From(0), alloc);
    matches!(sums(rt, &nothing, config), Err(Refused::NoResources))
}
