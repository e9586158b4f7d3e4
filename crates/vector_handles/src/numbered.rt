//! The inputs of a script by their numbers.

ghost use Rattle.std.specs.Prelude.{◌≡◌, ◌≤◌, IfOk, Some, option_copied, vec_len};
ghost use Rattle.cvl_base.specs.declared.kind.Kind.TheVariants as kind;
ghost use Rattle.cvl_base.specs.Gives.{Gives};
ghost use Rattle.cvl_base.specs.Limits.{most_elements};
ghost use Rattle.bound_names.specs.Arguments.{integer_in};
ghost use Rattle.bound_names.specs.Names.{AreInLimit};
ghost use Rattle.bound_names.specs.Operands.{held, kind_held};
ghost use Rattle.vector_handles.specs.CallValues.{integers_of, nest_of, numbered};
ghost use Rattle.vector_handles.specs.ElementTypes.{integer};
ghost use Rattle.vector_handles.specs.Families.{vector};
ghost use Rattle.vector_handles.specs.InputTexts.{place_of};

use crate::answers::{Answer, bound_integers};
use crate::asked::Asked;
use crate::kept::{Content, KeptInput};
use bound_names::Bound;
use call_reader::{read_nested, read_vector};
use cvl_base::{Fault, FaultNo, Memory, Refused};
use segdes::SegDes;
use std::thread::Threads;

/// The place of an input by its number, which counts from 1.
pub(crate) fn place_of(number: i32) -> Option<usize>
    ensures { result ≡ place_of number }
{
    let number = usize::try_from(number).ok()?;
    number.checked_sub(1)
}

/// The input with this number, counted from 1.
pub(crate) fn numbered<A: Memory>(inputs: &[KeptInput<A>], number: i32) -> Option<&KeptInput<A>>
    ensures { option_copied result ≡ numbered inputs.now number }
{
    inputs.get(place_of(number)?)
}

impl<'a, R: Threads + Sync, A: Memory> Asked<'a, '_, R, A> {
    /// The input whose number, counted from 1, is the first argument.
    pub(crate) fn input_asked_for(&self) -> Option<&'a KeptInput<A>>
        requires { kind_held self.now.operands.first ≡ Some kind.Integer }
        ensures { option_copied result ≡ numbered self.now.inputs.now (integer_in (held self.now.operands.first)) }
    {
        numbered(self.inputs, self.operands.first.integer())
    }

    /// The integers of an input: of bytes, read now if they were not before, or of a vector, which is shared.
    pub(crate) fn value_of_input(&self, input: &KeptInput<A>) -> Answer<A>
        ensures { Gives (λ v. v) result (vector integer (integers_of input.now)) }
    {
        let (rt, alloc, config) = (self.rt, self.alloc, self.config);
        match &input.content {
            Content::Bytes(bytes) => bound_integers(read_vector(
                rt,
                alloc,
                config,
                bytes.as_slice(),
            )),
            Content::Read(read) => Ok(Bound::from_shared(read.numbers.share()?)),
            Content::Vector(items) => Ok(Bound::from_shared(items.share()?)),
        }
    }

    /// The integers of a nested input and their descriptor; `BadInput` at 0 if it is a vector, or bytes that were read as a list
    /// of numbers: neither is a nested text.
    pub(crate) fn nest_of(&self, input: &KeptInput<A>) -> Result<(Vec<i32, A>, SegDes<A>), Refused>
        ensures meaning { Gives (λ nest. (nest.0.items, nest.1)) result (nest_of input.now) }
        ensures in_limit { IfOk result (λ nest. (vec_len nest.0 ≤ most_elements) × AreInLimit nest.1) }
    {
        match &input.content {
            Content::Bytes(bytes) => read_nested(
                self.rt,
                self.alloc,
                self.config,
                bytes.as_slice(),
            ),
            Content::Read(_) | Content::Vector(_) => {
                Err(Refused::Fault(Fault::at(FaultNo::BadInput, 0)))
            }
        }
    }
}
