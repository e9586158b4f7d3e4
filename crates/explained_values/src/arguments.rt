//! The arguments of a line, as an explanation sees them.

ghost use Rattle.std.specs.Prelude.{◌≡◌, ◌≤◌, Some, length, map, unsigned_abs};
ghost use Rattle.cvl_base.specs.declared.value.Value.TheVariants as value;
ghost use Rattle.cvl_base.specs.Limits.{most_elements};
ghost use Rattle.bound_names.specs.Arguments.{booleans_in, integers_in, lengths_in};
ghost use Rattle.explained_values.specs.Arguments.{argument_words, boolean_words, elements_in};
ghost use Rattle.explained_values.specs.Arguments.{integer_at, kind_in, spelled_at, value_held, value_words};

use crate::segments::total_of;
use cvl_base::{Kind, Memory, NoResources, Value};
use explained_calls::{Counted, Number, Words, said};
use std::marker::Model;

/// What an argument holds.
#[derive(Clone, Copy)]
pub enum Holding<'a, A: Memory> {
    /// Nothing: its name is not bound.
    Nothing,
    /// The value that is bound to its name.
    Value(&'a Value<A>),
    /// A number in the line.
    Integer(i32),
    /// `T` or `F`.
    Boolean(bool),
}

/// An argument of a line: its word in the line, and what it holds.
#[derive(Drop)]
pub struct Argument<'a, A: Memory> {
    word: &'a [u8],
    holding: Holding<'a, A>,
}

impl<'a, A: Memory> Model for Argument<'a, A> {
    ghost use Rattle.explained_values.specs.Arguments.{Spelled, value_held};

    ghost Value = { Spelled A };

    ghost view = { λ a. record { word = a.word.now; value = value_held a.holding } };
}

impl<'a, A: Memory> Argument<'a, A> {
    ghost use Rattle.explained_values.specs.Arguments.{value_held};

    /// An argument with this word and this value.
    pub fn new(word: &'a [u8], holding: Holding<'a, A>) -> Argument<'a, A>
        ensures word { result.word ≡ word.now }
        ensures value { result.value ≡ value_held holding.entry }
    {
        Argument { word, holding }
    }

    /// Its word.
    pub fn word(&self) -> &'a [u8]
        ensures { result.now ≡ self.now.word }
    {
        self.word
    }

    /// The kind of its value, if it has one.
    pub(crate) fn kind(&self) -> Option<Kind>
        ensures { result ≡ kind_in self.now.value }
    {
        match self.holding {
            Holding::Nothing => None,
            Holding::Value(value) => Some(value.kind()),
            Holding::Integer(_) => Some(Kind::Integer),
            Holding::Boolean(_) => Some(Kind::Boolean),
        }
    }

    /// The integers of a vector; none of another value.
    pub(crate) fn integers(&self) -> &'a [i32]
        ensures value { result.now ≡ integers_in self.now.value }
        ensures in_limit { length result.now ≤ most_elements }
    {
        match self.holding {
            Holding::Value(Value::Integers(xs)) => xs.as_slice(),
            _ => &[],
        }
    }

    /// The booleans of a vector; none of another value.
    pub(crate) fn booleans(&self) -> &'a [bool]
        ensures value { result.now ≡ booleans_in self.now.value }
        ensures in_limit { length result.now ≤ most_elements }
    {
        match self.holding {
            Holding::Value(Value::Booleans(bs)) => bs.as_slice(),
            _ => &[],
        }
    }

    /// The lengths of a descriptor; none of another value.
    #[tactic(auto, using(cvl_base::proofs::Descriptors::abs_pos))]
    pub(crate) fn lengths(&self) -> &'a [i32]
        ensures value { map unsigned_abs result.now ≡ lengths_in self.now.value }
        ensures as_many { length result.now ≡ length (lengths_in self.now.value) }
        ensures few { length (lengths_in self.now.value) ≤ most_elements }
    {
        match self.holding {
            Holding::Value(Value::Descriptor(lengths)) => lengths.as_slice(),
            _ => &[],
        }
    }

    /// How many elements a vector has.
    pub(crate) fn elements(&self) -> usize
        ensures { result ≡ elements_in self.now.value }
    {
        match self.holding {
            Holding::Value(Value::Integers(xs)) => xs.len(),
            Holding::Value(Value::Booleans(bs)) => bs.len(),
            _ => 0,
        }
    }

    /// The integer at a place of a vector, or a single one.
    pub(crate) fn integer_at(&self, place: usize) -> Option<i32>
        ensures { result ≡ integer_at self.now.value place }
    {
        match self.holding {
            Holding::Value(Value::Integers(xs)) => xs.as_slice().get(place).copied(),
            Holding::Value(Value::Integer(n)) => Some(*n),
            Holding::Integer(n) => Some(n),
            _ => None,
        }
    }
}

/// The argument at a place, counted from 0; after the last one there is none.
pub(crate) fn spelled_at<'a, A: Memory>(
    arguments: &[Argument<'a, A>],
    place: usize,
) -> Argument<'a, A>
    ensures { result ≡ spelled_at arguments.now place }
{
    match arguments.get(place) {
        Some(argument) => Argument::new(argument.word, argument.holding),
        None => Argument::new(b"", Holding::Nothing),
    }
}

/// A single boolean.
#[derive(Clone, Copy)]
struct Boolean(bool);

impl Words for Boolean {
    ghost words = { λ boolean. boolean_words boolean.0 };

    fn put<A: Memory>(&self, text: &mut Vec<u8, A>) -> Result<(), NoResources> {
        if self.0 {
            b"the boolean T".put(text)
        } else {
            b"the boolean F".put(text)
        }
    }
}

/// What a value is, and its length.
#[derive(Drop)]
struct Described<'a, A: Memory>(&'a Value<A>);

impl<'a, A: Memory> Words for Described<'a, A> {
    ghost words = { λ described. value_words (Some described.0.now) };

    fn put<B: Memory>(&self, text: &mut Vec<u8, B>) -> Result<(), NoResources> {
        match self.0 {
            Value::Integers(xs) => said![b"integers, ", Counted(xs.len(), b"element")].put(text),
            Value::Booleans(bs) => said![b"booleans, ", Counted(bs.len(), b"element")].put(text),
            Value::Descriptor(lengths) => {
                let lengths = lengths.as_slice();
                let segments = Counted(lengths.len(), b"segment");
                let elements = Counted(total_of(lengths), b"element");
                said![b"a descriptor, ", segments, b", ", elements].put(text)
            }
            Value::Integer(n) => said![b"the integer ", Number(*n)].put(text),
            Value::Boolean(b) => Boolean(*b).put(text),
        }
    }
}

/// What an argument holds, and its length.
impl<'a, A: Memory> Words for Holding<'a, A> {
    ghost words = { λ held. value_words (value_held held) };

    fn put<B: Memory>(&self, text: &mut Vec<u8, B>) -> Result<(), NoResources> {
        match self {
            Holding::Nothing => b"not bound".put(text),
            Holding::Value(value) => Described(*value).put(text),
            Holding::Integer(n) => said![b"the integer ", Number(*n)].put(text),
            Holding::Boolean(b) => Boolean(*b).put(text),
        }
    }
}

/// An argument with its kind and length: its word, and `: integers, 8 elements`.
impl<'a, A: Memory> Words for Argument<'a, A> {
    ghost words = { argument_words };

    fn put<B: Memory>(&self, text: &mut Vec<u8, B>) -> Result<(), NoResources> {
        said![self.word, b": ", self.holding].put(text)
    }
}
