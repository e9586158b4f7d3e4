//! Bound values; a descriptor is kept with the starts of its segments.

ghost use Rattle.std.specs.Prelude.{◌≡◌, ◌≤◌, IfOk, IfSome, None, option_copied, vec_len};
ghost use Rattle.cvl_base.specs.Limits.{most_elements};
ghost use Rattle.bound_names.specs.Arguments.{lengths_of};
ghost use Rattle.bound_names.specs.Names.{AreInLimit};

use crate::held::Held;
use crate::shared::SharedInts;
use cvl_base::{Bools, Ints, Memory, NoResources, Value};
use segdes::SegDes;
use std::marker::Model;

/// A bound value. Its model is the value. The starts of a descriptor's segments are made once, when it is bound: a segmented call
/// takes them as they are. A vector of an input is not copied when a name is bound to it.
#[derive(Drop)]
pub struct Bound<A: Memory> {
    held: Held<A>,
    descriptor: Option<SegDes<A>>,
}

impl<A: Memory> Model for Bound<A> {
    ghost use Rattle.std.specs.Prelude.{◌≡◌, IfSome};
    ghost use Rattle.bound_names.specs.Names.{AreInLimit, BoundValue};
    ghost use Rattle.bound_names.specs.Arguments.{lengths_of};
    ghost use Rattle.bound_names.specs.Held.{value_held};

    ghost Value = { BoundValue A };

    ghost view = { λ b. value_held b.held };

    ghost invariant = { λ b. (b.descriptor ≡ lengths_of (value_held b.held)) × IfSome b.descriptor AreInLimit };
}

impl<A: Memory> Bound<A> {
    /// A vector of integers, at most 4,194,304.
    pub fn from_integers(items: Vec<i32, A>) -> Bound<A>
        requires { vec_len items ≤ most_elements }
        ensures { result ≡ Value.Integers items.items }
    {
        Bound::of_value(Value::Integers(Ints::from_vec(items)))
    }

    /// A vector of booleans, at most 4,194,304.
    pub fn from_booleans(items: Vec<bool, A>) -> Bound<A>
        requires { vec_len items ≤ most_elements }
        ensures { result ≡ Value.Booleans items.items }
    {
        Bound::of_value(Value::Booleans(Bools::from_vec(items)))
    }

    /// A value that is no descriptor.
    pub fn of_value(value: Value<A>) -> Bound<A>
        requires { lengths_of value ≡ None }
        ensures { result ≡ value }
    {
        Bound {
            held: Held::Own(value),
            descriptor: None,
        }
    }

    /// The vector of an input, which the input still has.
    pub fn from_shared(items: SharedInts<A>) -> Bound<A>
        ensures { result ≡ Value.Integers items }
    {
        Bound {
            held: Held::Shared(items),
            descriptor: None,
        }
    }

    /// A descriptor of at most 4,194,304 segments and elements, whose lengths are copied into the value.
    pub fn from_descriptor(alloc: A, descriptor: SegDes<A>) -> Result<Bound<A>, NoResources>
        requires { AreInLimit descriptor }
        ensures { IfOk result (λ bound. bound ≡ Value.Descriptor descriptor) }
    {
        let lengths = descriptor.to_lengths(alloc)?;
        Ok(Bound {
            held: Held::Own(Value::Descriptor(lengths)),
            descriptor: Some(descriptor),
        })
    }

    /// The value.
    pub fn value(&self) -> &Value<A>
        ensures { result.now ≡ self.now }
    {
        match &self.held {
            Held::Own(value) => value,
            Held::Shared(items) => items.value(),
        }
    }

    /// The value, as one of its own. It is copied only if an input or another name has it too.
    pub fn into_value(self, alloc: A) -> Result<Value<A>, NoResources>
        ensures { IfOk result (λ value. value ≡ self) }
    {
        let Bound {
            held,
            descriptor: _descriptor,
        } = self;
        match held {
            Held::Own(value) => Ok(value),
            Held::Shared(items) => items.into_value(alloc),
        }
    }

    /// The descriptor with its starts, if the value is one.
    pub fn descriptor(&self) -> Option<&SegDes<A>>
        ensures value { option_copied result ≡ lengths_of self.now }
        ensures in_limit { IfSome (option_copied result) AreInLimit }
    {
        self.descriptor.as_ref()
    }
}
