//! The inputs of a session.

ghost use Rattle.std.specs.Prelude.{◌≡◌, IfOk};
ghost use Rattle.bound_names.specs.Operands.{AreTaken, held_at};
ghost use Rattle.vector_handles.specs.Answers.{RefusesAs};
ghost use Rattle.vector_handles.specs.CallValues.{integers_of, table_value};

use crate::input::Input;
use crate::numbered::place_of;
use crate::read_bytes::ReadBytes;
use bound_names::{Operands, SharedInts};
use call_reader::read_vector;
use cvl_base::{Config, Memory, NoResources, Op, Refused};
use std::marker::Model;
use std::thread::Threads;

/// What a session keeps of an input.
#[derive(Drop)]
pub enum Content<A: Memory> {
    /// The bytes, which no script has read as a list of numbers yet.
    Bytes(Vec<u8, A>),
    /// The numbers of the bytes, shared with the names that are bound to it.
    Read(ReadBytes<A>),
    /// The vector, shared with the names that are bound to it.
    Vector(SharedInts<A>),
}

/// An input of a session, seen as the input.
#[derive(Drop)]
pub struct KeptInput<A: Memory> {
    pub(crate) content: Content<A>,
}

impl<A: Memory> Model for KeptInput<A> {
    ghost use Rattle.vector_handles.specs.KeptInputs.{InputKept, input_kept};

    ghost Value = { InputKept A };

    ghost view = { λ kept. input_kept kept.content };
}

impl<A: Memory> KeptInput<A> {
    /// Keeps an input; a vector is made ready to be shared. No element is copied.
    pub(crate) fn new(alloc: A, input: Input<A>) -> Result<KeptInput<A>, NoResources>
        ensures { IfOk result (λ kept. kept ≡ input) }
    {
        match input {
            Input::Bytes(bytes) => Ok(KeptInput {
                content: Content::Bytes(bytes),
            }),
            Input::Vector(items) => Ok(KeptInput {
                content: Content::Vector(SharedInts::new(alloc, items)?),
            }),
        }
    }

    /// Reads bytes that are a list of numbers, and then keeps these instead. The input stays the same. Reports the fault of the
    /// reading.
    pub(crate) fn read<R: Threads + Sync>(
        &mut self,
        rt: &R,
        alloc: A,
        config: Config,
    ) -> Result<(), Refused>
        ensures same { self.new ≡ self.old }
        ensures fault { RefusesAs result (integers_of self.old) }
    {
        if let Content::Bytes(bytes) = &self.content {
            let numbers = read_vector(rt, alloc, config, bytes.as_slice())?;
            let read = ReadBytes::new(alloc, bytes, numbers)?;
            self.content = Content::Read(read);
        }
        Ok(())
    }
}

/// The inputs, ready to be shared, in their order.
pub(crate) fn kept_inputs<A: Memory>(
    alloc: A,
    inputs: Vec<Input<A>, A>,
) -> Result<Vec<KeptInput<A>, A>, NoResources>
    ensures { IfOk result (λ kept. kept.items ≡ inputs.items) }
{
    let mut kept = Vec::with_capacity(alloc, inputs.len())?;
    for input in inputs {
        kept.push(KeptInput::new(alloc, input)?)?;
    }
    Ok(kept)
}

/// Reads the input that a call of `input` names by its number, counted from 1, and keeps its numbers instead of its bytes.
/// Reports the call's fault if they are no list of numbers. Another call reads nothing here.
pub(crate) fn read_asked_for<R: Threads + Sync, A: Memory>(
    rt: &R,
    alloc: A,
    config: Config,
    inputs: &mut Vec<KeptInput<A>, A>,
    op: Op,
    operands: &Operands<'_, A>,
) -> Result<(), Refused>
    requires kinds { AreTaken op operands.now }
    ensures same { inputs.new.items ≡ inputs.old.items }
    ensures fault { RefusesAs result (table_value inputs.old.items op (held_at operands.now)) }
{
    let Op::Input = op else {
        return Ok(());
    };
    let Some(place) = place_of(operands.first.integer()) else {
        return Ok(());
    };
    match inputs.get_mut(place) {
        Some(input) => input.read(rt, alloc, config),
        None => Ok(()),
    }
}
