//! The texts of inputs that are no lists of numbers.

ghost use Rattle.std.specs.Prelude.{◌≡◌, IfOk, option_and_then, option_map};
ghost use Rattle.vector_handles.specs.CallValues.{numbered};
ghost use Rattle.vector_handles.specs.InputTexts.{other_text};

use crate::kept::{Content, KeptInput};
use crate::numbered::numbered;
use crate::session::Session;
use call_reader::read_vector;
use cvl_base::{Memory, NoResources, Refused};
use std::thread::Threads;

impl<A: Memory> Session<A> {
    /// The bytes of an input that is no list of numbers.
    fn text_of<'a, R: Threads + Sync>(
        &self,
        rt: &R,
        input: &'a KeptInput<A>,
    ) -> Result<Option<&'a [u8]>, NoResources>
        ensures { IfOk result (λ text. option_map (λ bytes. bytes.now) text ≡ other_text input.now) }
    {
        let Content::Bytes(bytes) = &input.content else {
            return Ok(None);
        };
        match read_vector(rt, self.alloc, self.config, bytes.as_slice()) {
            Ok(_) => Ok(None),
            Err(Refused::Fault(_)) => Ok(Some(bytes.as_slice())),
            Err(Refused::NoResources) => Err(NoResources),
        }
    }

    /// The bytes of the input with this number, counted from 1, if they are no list of numbers, as those of a nested text and
    /// those at which `input` reports a fault. None if there is no such input, or if it is a list of numbers: a session drops the
    /// bytes of one once a script has read it.
    ///
    /// Bytes that no script has read yet are read here, so that `NoResources` comes if memory for their numbers is refused.
    pub fn other_text<R: Threads + Sync>(
        &self,
        rt: &R,
        number: i32,
    ) -> Result<Option<&[u8]>, NoResources>
        ensures { IfOk result (λ text. option_map (λ bytes. bytes.now) text
            ≡ option_and_then other_text (numbered self.now.inputs number)) }
    {
        match numbered(self.inputs.as_slice(), number) {
            Some(input) => self.text_of(rt, input),
            None => Ok(None),
        }
    }
}
