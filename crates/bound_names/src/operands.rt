//! The operands of a call: what each of its arguments holds.

ghost use Rattle.std.specs.Prelude.{◌≡◌, ◌≤◌, IfSome, Some, length, option_copied, sum};
ghost use Rattle.cvl_base.specs.declared.kind.Kind.TheVariants as kind;
ghost use Rattle.cvl_base.specs.Limits.{most_elements};
ghost use Rattle.bound_names.specs.Arguments.{boolean_in, booleans_in, descriptor_in, integer_in, integers_in, lengths_in};
ghost use Rattle.bound_names.specs.Names.{AreInLimit};
ghost use Rattle.bound_names.specs.Operands.{held, kind_held};

use crate::bound::Bound;
use cvl_base::{Kind, Memory, Value};
use segdes::SegDes;

/// What an argument of a call holds.
#[derive(Clone, Copy)]
pub enum Operand<'a, A: Memory> {
    /// The call has no argument at this place.
    Absent,
    /// The value that is bound to a name.
    Bound(&'a Bound<A>),
    /// A number of the line.
    Integer(i32),
    /// `T` or `F`.
    Boolean(bool),
}

/// What the arguments of a call hold, from left to right.
#[derive(Clone, Copy)]
pub struct Operands<'a, A: Memory> {
    /// The first argument.
    pub first: Operand<'a, A>,
    /// The second.
    pub second: Operand<'a, A>,
    /// The third.
    pub third: Operand<'a, A>,
    /// The fourth.
    pub fourth: Operand<'a, A>,
    /// The fifth.
    pub fifth: Operand<'a, A>,
}

impl<'a, A: Memory> Operand<'a, A> {
    /// The kind of what it holds, if it holds anything.
    pub(crate) fn kind(&self) -> Option<Kind>
        ensures { result ≡ kind_held self.now }
    {
        match *self {
            Operand::Absent => None,
            Operand::Bound(bound) => Some(bound.value().kind()),
            Operand::Integer(_) => Some(Kind::Integer),
            Operand::Boolean(_) => Some(Kind::Boolean),
        }
    }

    /// The integers of a vector.
    pub fn integers(&self) -> &'a [i32]
        requires { kind_held self.now ≡ Some kind.Integers }
        ensures value { result.now ≡ integers_in (held self.now) }
        ensures in_limit { length result.now ≤ most_elements }
    {
        self.integers_if_any()
    }

    /// The booleans of a vector.
    pub fn booleans(&self) -> &'a [bool]
        requires { kind_held self.now ≡ Some kind.Booleans }
        ensures value { result.now ≡ booleans_in (held self.now) }
        ensures in_limit { length result.now ≤ most_elements }
    {
        self.booleans_if_any()
    }

    /// The descriptor, with its starts.
    pub fn descriptor(&self) -> &'a SegDes<A>
        requires { kind_held self.now ≡ Some kind.Descriptor }
        ensures value { result.now ≡ lengths_in (held self.now) }
        ensures few_segments { length result.now ≤ most_elements }
        ensures total_in_limit { sum result.now ≤ most_elements }
    {
        match self.descriptor_if_any() {
            Some(descriptor) => descriptor,
            None => unreachable!(),
        }
    }

    /// The integer.
    pub fn integer(&self) -> i32
        requires { kind_held self.now ≡ Some kind.Integer }
        ensures { result ≡ integer_in (held self.now) }
    {
        match *self {
            Operand::Integer(n) => n,
            Operand::Bound(bound) => match bound.value() {
                Value::Integer(n) => *n,
                _ => unreachable!(),
            },
            _ => unreachable!(),
        }
    }

    /// The boolean.
    pub fn boolean(&self) -> bool
        requires { kind_held self.now ≡ Some kind.Boolean }
        ensures { result ≡ boolean_in (held self.now) }
    {
        match *self {
            Operand::Boolean(b) => b,
            Operand::Bound(bound) => match bound.value() {
                Value::Boolean(b) => *b,
                _ => unreachable!(),
            },
            _ => unreachable!(),
        }
    }

    /// The integers, if it is a vector of them, else nothing: for a place at which a family takes other kinds too.
    pub fn integers_if_any(&self) -> &'a [i32]
        ensures value { result.now ≡ integers_in (held self.now) }
        ensures in_limit { length result.now ≤ most_elements }
    {
        match *self {
            Operand::Bound(bound) => match bound.value() {
                Value::Integers(xs) => xs.as_slice(),
                _ => &[],
            },
            _ => &[],
        }
    }

    /// The booleans, if it is a vector of them, else nothing: for a place at which a family takes other kinds too.
    pub fn booleans_if_any(&self) -> &'a [bool]
        ensures value { result.now ≡ booleans_in (held self.now) }
        ensures in_limit { length result.now ≤ most_elements }
    {
        match *self {
            Operand::Bound(bound) => match bound.value() {
                Value::Booleans(bs) => bs.as_slice(),
                _ => &[],
            },
            _ => &[],
        }
    }

    /// The descriptor, with its starts, if it is one.
    pub fn descriptor_if_any(&self) -> Option<&'a SegDes<A>>
        ensures value { option_copied result ≡ descriptor_in (held self.now) }
        ensures in_limit { IfSome (option_copied result) AreInLimit }
    {
        match *self {
            Operand::Bound(bound) => bound.descriptor(),
            _ => None,
        }
    }
}
