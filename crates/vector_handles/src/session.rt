//! Sessions: bound names and inputs, on which calls are made.

ghost use Rattle.std.specs.Prelude.{◌≡◌, [], IfOk, OnErr, option_copied};

use crate::input::Input;
use crate::kept::{KeptInput, kept_inputs};
use crate::shown::Shown;
use bound_names::{Names, bind_answer, bind_answers, take_out, value_of};
use crew::{Gate, OpenGate};
use cvl_base::{Call, Config, Memory, Name, NoResources, Refused, ResultNames, Value};
use std::collections::BTreeMap;
use std::marker::Model;
use std::thread::Threads;

/// The names that a script has bound, with their values, and its inputs.
///
/// A descriptor's starts are made once, when it is bound, and serve each call that takes it. A name bound to an input shares it,
/// without a copy: bytes are read once, and then dropped.
#[derive(Drop)]
pub struct Session<A: Memory> {
    pub(crate) config: Config,
    pub(crate) names: Names<A>,
    pub(crate) inputs: Vec<KeptInput<A>, A>,
    pub(crate) alloc: A,
}

impl<A: Memory> Model for Session<A> {
    ghost use Rattle.vector_handles.specs.Sessions.{State};

    ghost Value = { State A };

    ghost view = { λ s. record { names = s.names.entries; inputs = s.inputs.items } };
}

impl<A: Memory> Session<A> {
    ghost use Rattle.bound_names.specs.Names.{value_at};
    ghost use Rattle.vector_handles.specs.Answers.{IsStep};

    /// A session with no name bound, over these inputs, which a script counts from 1.
    pub fn new(
        alloc: A,
        config: Config,
        inputs: Vec<Input<A>, A>,
    ) -> Result<Session<A>, NoResources>
        ensures names { IfOk result (λ session. session.names ≡ []) }
        ensures inputs { IfOk result (λ session. session.inputs ≡ inputs.items) }
    {
        Ok(Session {
            config,
            names: BTreeMap::new(alloc),
            inputs: kept_inputs(alloc, inputs)?,
            alloc,
        })
    }

    /// Makes one call, as a line of a script asks for it. A binding binds its name, or its two names, to what the call gives, and
    /// shows nothing; a write shows its text and binds nothing.
    ///
    /// Reports the first fault, in this order: `WrongArgumentCount` if the call takes more or fewer arguments; for each argument
    /// from left to right, `UnknownName` and then `WrongKind`; `WrongArgumentCount` if the line binds two names and the call does
    /// not give two values; `TooManyNames` if there would be more than 4,096 bound names; and then those of the call,
    /// `WrongArgumentCount` if the line binds one name and the call gives two values, or `LengthMismatch` if the lengths of a
    /// written descriptor don't add up to the vector's. A refusal changes no name, so that you can make the same call again.
    /// Source: this library's script format.
    pub fn apply<R: Threads + Sync>(&mut self, rt: &R, call: &Call<A>) -> Result<Shown<A>, Refused>
        ensures meaning { IsStep self.old call.now self.new result }
        ensures inputs { self.new.inputs ≡ self.old.inputs }
        ensures refused { OnErr result (self.new.names ≡ self.old.names) }
    {
        self.apply_gated(rt, call, &OpenGate)
    }

    /// The same as [`Session::apply`], but in each call that races for tiles, the workers pass a gate at the points of their way
    /// through a tile. The gate changes no value and no fault.
    pub fn apply_gated<R: Threads + Sync, G: Gate>(
        &mut self,
        rt: &R,
        call: &Call<A>,
        gate: &G,
    ) -> Result<Shown<A>, Refused>
        ensures meaning { IsStep self.old call.now self.new result }
        ensures inputs { self.new.inputs ≡ self.old.inputs }
        ensures refused { OnErr result (self.new.names ≡ self.old.names) }
    {
        let args = call.args.as_slice();
        match call.results {
            ResultNames::None => Ok(Shown::Text(self.text_of_call(rt, call.op, args)?)),
            ResultNames::One(target) => {
                let answer = self.value_for(rt, &target, call.op, args, gate);
                bind_answer(&mut self.names, &target, answer)?;
                Ok(Shown::Nothing)
            }
            ResultNames::Two(first, second) => {
                let answer = self.values_for(rt, &first, &second, call.op, args);
                bind_answers(&mut self.names, &first, &second, answer)?;
                Ok(Shown::Nothing)
            }
        }
    }

    /// The value that is bound to a name.
    pub fn get(&self, name: &Name) -> Option<&Value<A>>
        ensures { option_copied result ≡ value_at self.now.names name.now }
    {
        value_of(&self.names, name)
    }

    /// The value that is bound to a name, taken out of the session, which ends. Copies nothing, and asks for no memory.
    pub fn into_value(self, name: &Name) -> Result<Option<Value<A>>, NoResources>
        ensures { IfOk result (λ value. value ≡ value_at self.names name.now) }
    {
        let Session {
            config: _,
            names,
            inputs,
            alloc,
        } = self;
        // the inputs go first, so that a vector of theirs has no other owner
        drop(inputs);
        match take_out(names, name) {
            Some(bound) => Ok(Some(bound.into_value(alloc)?)),
            None => Ok(None),
        }
    }
}
