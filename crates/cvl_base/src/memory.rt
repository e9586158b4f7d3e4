//! The memory that a call works in.
use std::alloc::Allocator;

/// A handle to memory that can be copied and that several threads can use at once: for example `Global`, or a `&` to an
/// allocator.
///
/// Whatever takes memory is generic over it, so that a test can pass an allocator that refuses.
pub trait Memory: Allocator + Copy + Send + Sync {}

impl<A: Allocator + Copy + Send + Sync> Memory for A {}
