//! The inputs of a script.

use cvl_base::Ints;
use std::alloc::Allocator;

/// An input of a script.
#[derive(Drop)]
#[derive_where(Debug; A)]
pub enum Input<A: Allocator> {
    /// The bytes of a file, read when the script asks for them: integers in decimal between white space, or a list of lists of
    /// them.
    Bytes(Vec<u8, A>),
    /// A vector of integers.
    Vector(Ints<A>),
}
