//! The texts of writes, of which a long vector's need not be whole.

ghost use Rattle.cvl_base.specs.declared.call.ResultNames.TheVariants as results;
ghost use Rattle.std.specs.Prelude.{◌≡◌, IfOk, IfSome, MatchOption, None, Ok, Some};
ghost use Rattle.bound_names.specs.Arguments.{args_fault};
ghost use Rattle.bound_names.specs.Operands.{held_at};
ghost use Rattle.cvl_base.specs.Gives.{Gives, unless};
ghost use Rattle.vector_handles.specs.LongWrites.{long_text, text_written};
ghost use Rattle.vector_handles.specs.Steps.{performed, step, written};

use crate::asked::Asked;
use crate::session::Session;
use crate::writes::name_of_first;
use bound_names::{Operand, Operands};
use cvl_base::{Arg, Call, Config, Memory, Op, Refused, ResultNames};
use std::thread::Threads;
use value_texts::{FlatVector, long_vector};

/// The text of a write of a vector of more than 262,144 elements, or of a descriptor of as many segments, with no second
/// argument: the name, ` = `, the vector's text and a line feed.
#[derive(Clone, Copy)]
pub struct LongWrite<'a> {
    /// The name.
    pub name: &'a [u8],
    /// The vector.
    pub vector: FlatVector<'a>,
    /// The workers among which its text is shared.
    pub config: Config,
}

/// The text of a write.
#[derive(Drop)]
pub enum WrittenText<'a, A: Memory> {
    /// The text.
    Whole(Vec<u8, A>),
    /// A long vector, whose text you can put somewhere piece by piece.
    Long(LongWrite<'a>),
}

impl<A: Memory> Session<A> {
    /// The text of a write, or the fault that [`Session::apply`] reports of it, which makes the same text whole. `None` if the
    /// call is a binding.
    pub fn written<'a, R: Threads + Sync>(
        &'a self,
        rt: &'a R,
        call: &'a Call<A>,
    ) -> Option<Result<WrittenText<'a, A>, Refused>>
        ensures { MatchOption result
            (IfOk (step self.now.names self.now.inputs call.now) (λ stepped. stepped.shown ≡ None))
            (λ answer. Gives (λ text. record { names = self.now.names; shown = Some (text_written text) }) answer
            (step self.now.names self.now.inputs call.now)) }
    {
        match call.results {
            ResultNames::None => Some(self.text_or_vector(rt, call.op, call.args.as_slice())),
            ResultNames::One(_) | ResultNames::Two(_, _) => None,
        }
    }

    /// The text of a call without a target, or the long vector that it writes.
    fn text_or_vector<'a, R: Threads + Sync>(
        &'a self,
        rt: &'a R,
        op: Op,
        args: &'a [Arg],
    ) -> Result<WrittenText<'a, A>, Refused>
        ensures { Gives (λ text. record { names = self.now.names; shown = Some (text_written text) }) result
            (unless (args_fault self.now.names op args.now)
            (performed self.now.names self.now.inputs results.None op args.now)) }
    {
        self.asked(rt, op, args)?.text_or_vector(args)
    }
}

impl<'n, R: Threads + Sync, A: Memory> Asked<'_, 'n, R, A> {
    /// The text of a write with these arguments, or the long vector that it writes.
    fn text_or_vector(&self, args: &'n [Arg]) -> Result<WrittenText<'n, A>, Refused>
        ensures { Gives text_written result (written args.now (held_at self.now.operands)) }
    {
        match long_write_of(self.config, &self.operands, args) {
            Some(write) => Ok(WrittenText::Long(write)),
            None => Ok(WrittenText::Whole(self.text_of_write(args)?)),
        }
    }
}

/// What these arguments write if the first names a long vector and there is no second.
fn long_write_of<'a, A: Memory>(
    config: Config,
    operands: &Operands<'a, A>,
    args: &'a [Arg],
) -> Option<LongWrite<'a>>
    ensures { IfSome result (λ write. written args.now (held_at operands.now) ≡ Ok (long_text write)) }
{
    match (operands.first, operands.second) {
        (Operand::Bound(bound), Operand::Absent) => Some(LongWrite {
            name: name_of_first(args),
            vector: long_vector(bound.value())?,
            config,
        }),
        _ => None,
    }
}
