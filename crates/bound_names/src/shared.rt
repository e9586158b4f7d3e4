//! Vectors of integers with several owners.

ghost use Rattle.std.specs.Prelude.{◌≡◌, IfOk};
ghost use Rattle.bound_names.specs.Shared.{AreIntegers};

use cvl_base::{Ints, Memory, NoResources, Value};
use std::marker::Model;
use std::sync::Arc;

/// A vector of integers that an input shares with the names bound to it. Its model is the list of its elements. Nobody changes
/// it, and its last owner frees it.
#[derive(Drop)]
pub struct SharedInts<A: Memory> {
    value: Arc<Value<A>, A>,
}

impl<A: Memory> Model for SharedInts<A> {
    ghost use Rattle.std.specs.Prelude.{List, ℤ, Some};
    ghost use Rattle.std.specs.Arc.{arc_value};
    ghost use Rattle.bound_names.specs.Arguments.{integers_in};
    ghost use Rattle.bound_names.specs.Shared.{AreIntegers};

    ghost Value = { List ℤ };

    ghost view = { λ s. integers_in (Some (arc_value s.value)) };

    ghost invariant = { λ s. AreIntegers (arc_value s.value) };
}

impl<A: Memory> SharedInts<A> {
    /// The integers, with one owner.
    pub fn new(alloc: A, items: Ints<A>) -> Result<SharedInts<A>, NoResources>
        ensures { IfOk result (λ shared. shared ≡ items) }
    {
        Ok(SharedInts {
            value: Arc::new(alloc, Value::Integers(items))?,
        })
    }

    /// One more owner. It asks for no memory: `NoResources` comes only at 2^63 owners, which no process has.
    pub fn share(&self) -> Result<SharedInts<A>, NoResources>
        ensures { IfOk result (λ shared. shared ≡ self.now) }
    {
        Ok(SharedInts {
            value: Arc::try_clone(&self.value)?,
        })
    }

    /// The integers as a value.
    pub fn value(&self) -> &Value<A>
        ensures { result.now ≡ Value.Integers self.now }
    {
        &*self.value
    }

    /// The integers as a value of its own, which is copied only if there are other owners.
    pub fn into_value(self, alloc: A) -> Result<Value<A>, NoResources>
        ensures { IfOk result (λ v. v ≡ Value.Integers self) }
    {
        match Arc::try_unwrap(self.value) {
            Ok(value) => Ok(value),
            Err(shared) => copied(alloc, &*shared),
        }
    }
}

/// A copy of a vector of integers.
fn copied<A: Memory>(alloc: A, value: &Value<A>) -> Result<Value<A>, NoResources>
    requires { AreIntegers value.now }
    ensures { IfOk result (λ v. v ≡ value.now) }
{
    match value {
        Value::Integers(xs) => {
            let items = Vec::from_slice(alloc, xs.as_slice())?;
            Ok(Value::Integers(Ints::from_vec(items)))
        }
        _ => unreachable!(),
    }
}
