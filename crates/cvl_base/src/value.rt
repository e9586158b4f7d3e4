//! Values, which calls take and give.

ghost use Rattle.std.specs.Prelude.{◌≡◌};
ghost use Rattle.cvl_base.specs.Values.{kind_of};

use crate::elements::{Bools, Ints};
use crate::lengths::Lengths;
use call_table::Kind;
use std::alloc::Allocator;

/// A value of one of the five kinds.
#[derive(Drop)]
#[derive_where(Debug; A)]
pub enum Value<A: Allocator> {
    /// A vector of integers.
    Integers(Ints<A>),
    /// A vector of booleans.
    Booleans(Bools<A>),
    /// A descriptor, as the lengths of its segments.
    Descriptor(Lengths<A>),
    /// One integer.
    Integer(i32),
    /// One boolean.
    Boolean(bool),
}

impl<A: Allocator> Value<A> {
    /// The kind of the value.
    pub fn kind(&self) -> Kind
        ensures { result ≡ kind_of self.now }
    {
        match self {
            Value::Integers(_) => Kind::Integers,
            Value::Booleans(_) => Kind::Booleans,
            Value::Descriptor(_) => Kind::Descriptor,
            Value::Integer(_) => Kind::Integer,
            Value::Boolean(_) => Kind::Boolean,
        }
    }
}
