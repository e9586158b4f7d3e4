//! The text of a write.

ghost use Rattle.cvl_base.specs.declared.call.ResultNames.TheVariants as results;
ghost use Rattle.std.specs.Prelude.{◌≡◌, Some, is_ok, slice_get};
ghost use Rattle.std.specs.Option.{option_copied};
ghost use Rattle.call_reader.specs.Texts.{cut_text, value_text};
ghost use Rattle.cvl_base.specs.Gives.{Gives, unless};
ghost use Rattle.vector_handles.specs.Answers.{Appends};
ghost use Rattle.bound_names.specs.Arguments.{args_fault};
ghost use Rattle.bound_names.specs.Operands.{held_at};
ghost use Rattle.vector_handles.specs.Steps.{name_in, performed, shown_text_of, written};

use crate::asked::Asked;
use crate::session::Session;
use bound_names::Operand;
use call_reader::put_value;
use cvl_base::{Arg, Fault, FaultNo, Memory, Op, Refused, Value};
use segdes::SegDes;
use std::thread::Threads;

impl<A: Memory> Session<A> {
    /// The text of a call without a target: the first fault of its arguments, and then those of a write.
    pub(crate) fn text_of_call<R: Threads + Sync>(
        &self,
        rt: &R,
        op: Op,
        args: &[Arg],
    ) -> Result<Vec<u8, A>, Refused>
        ensures { Gives (λ text. record { names = self.now.names; shown = Some text.items }) result
            (unless (args_fault self.now.names op args.now)
            (performed self.now.names self.now.inputs results.None op args.now)) }
    {
        self.asked(rt, op, args)?.text_of_write(args)
    }
}

impl<R: Threads + Sync, A: Memory> Asked<'_, '_, R, A> {
    /// The name, ` = `, the value and a line feed: `LengthMismatch` if a descriptor beside the value doesn't add up to its
    /// length.
    pub(crate) fn text_of_write(&self, args: &[Arg]) -> Result<Vec<u8, A>, Refused>
        ensures { Gives (λ text. text.items) result (written args.now (held_at self.now.operands)) }
    {
        let mut text = Vec::new(self.alloc);
        text.extend_from_slice(name_of_first(args))?;
        text.extend_from_slice(b" = ")?;
        self.put_first(&mut text)?;
        text.push(b'\n')?;
        Ok(text)
    }

    /// Appends the text of the first operand, cut by the second if that is a descriptor.
    fn put_first(&self, text: &mut Vec<u8, A>) -> Result<(), Refused>
        ensures { Appends text.old.items text.new.items result (shown_text_of (held_at self.now.operands)) }
    {
        let beside = self.operands.second.descriptor_if_any();
        match self.operands.first {
            Operand::Absent => Ok(()),
            Operand::Bound(bound) => self.put_beside(bound.value(), beside, text),
            Operand::Integer(n) => self.put_beside(&Value::Integer(n), beside, text),
            Operand::Boolean(b) => self.put_beside(&Value::Boolean(b), beside, text),
        }
    }

    /// Appends the text of a value, cut by a descriptor if there is one: `LengthMismatch` if the value is no vector as long as
    /// the segments together.
    fn put_beside(
        &self,
        value: &Value<A>,
        beside: Option<&SegDes<A>>,
        text: &mut Vec<u8, A>,
    ) -> Result<(), Refused>
        ensures { Appends text.old.items text.new.items result (value_text (option_copied beside.entry) value.now) }
    {
        if let Some(descriptor) = beside {
            if !is_cut(value, descriptor) {
                return Err(Refused::Fault(Fault::new(FaultNo::LengthMismatch)));
            }
        }
        Ok(put_value(self.rt, self.alloc, self.config, value, beside, text)?)
    }
}

/// The name that is the first argument.
pub(crate) fn name_of_first(args: &[Arg]) -> &[u8]
    ensures { result.now ≡ name_in (slice_get args.now 0) }
{
    match args.first() {
        Some(Arg::Name(name)) => name.as_bytes(),
        _ => &[],
    }
}

/// Whether the value is a vector as long as the descriptor's segments together.
fn is_cut<A: Memory>(value: &Value<A>, descriptor: &SegDes<A>) -> bool
    ensures { result ≡ is_ok (cut_text descriptor.now value.now) }
{
    match value {
        Value::Integers(xs) => descriptor.total() == xs.len(),
        Value::Booleans(bs) => descriptor.total() == bs.len(),
        _ => false,
    }
}
