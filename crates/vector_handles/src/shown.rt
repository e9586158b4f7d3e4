//! What a call shows.

use std::alloc::Allocator;

/// What a call shows: the text of a write.
#[derive(Drop)]
#[derive_where(Debug; A)]
pub enum Shown<A: Allocator> {
    /// The call is a binding, which shows nothing.
    Nothing,
    /// The text of a write, which ends with a line feed.
    Text(Vec<u8, A>),
}
