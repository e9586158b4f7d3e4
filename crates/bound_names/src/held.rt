//! What a name has of its value.

use crate::shared::SharedInts;
use cvl_base::{Memory, Value};

/// A value of the name's own, or a vector of integers that it shares with an input.
#[derive(Drop)]
pub enum Held<A: Memory> {
    /// Its own.
    Own(Value<A>),
    /// An input's.
    Shared(SharedInts<A>),
}
