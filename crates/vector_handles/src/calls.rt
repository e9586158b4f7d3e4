//! The value of each call, family by family.

ghost use Rattle.cvl_base.specs.declared.operation.Op.TheVariants as op;
ghost use Rattle.bound_names.specs.Operands.{AreTaken};
ghost use Rattle.vector_handles.specs.Answers.{IsTableValue};

use crate::answers::Answer;
use crate::asked::Asked;
use bound_names::Bound;
use crew::Gate;
use cvl_base::{Fault, FaultNo, Memory, Op, Refused};
use segdes::SegDes;
use std::thread::Threads;

impl<R: Threads + Sync, A: Memory> Asked<'_, '_, R, A> {
    /// The value of a call; `UnknownCall` for `write`, which gives none, and `WrongArgumentCount` for `nested`, which gives two.
    /// The workers that race for it pass the gate.
    pub(crate) fn value<G: Gate>(&self, op: Op, gate: &G) -> Answer<A>
        requires kinds { AreTaken op self.now.operands }
        ensures { IsTableValue self.now.inputs.now op self.now.operands result }
    {
        match op {
            Op::Input => self.input(),
            Op::Nested => Err(Refused::Fault(Fault::new(FaultNo::WrongArgumentCount))),
            Op::Ints2(operator) => self.ints2(operator, gate),
            Op::Ints1(operator) => self.ints1(operator),
            Op::Compare(operator) => self.compare(operator),
            Op::Bools2(operator) => self.bools2(operator),
            Op::Bools1(operator) => self.bools1(operator),
            Op::Choose(element) => self.choose(element),
            Op::IntFromBool => self.int_from_bool(),
            Op::BoolFromInt => self.bool_from_int(),
            Op::Scan(operator, cut) => self.scan(operator, cut, gate),
            Op::Reduce(operator, cut) => self.reduce(operator, cut, gate),
            Op::CheckedScan(cut) => self.checked_scan(cut, gate),
            Op::CheckedReduce(cut) => self.checked_reduce(cut, gate),
            Op::BoolScan(operator, cut) => self.bool_scan(operator, cut, gate),
            Op::BoolReduce(operator, cut) => self.bool_reduce(operator, cut, gate),
            Op::Permute(form, cut, element) => self.permute(form, cut, element, gate),
            Op::Length(element) => self.length(element),
            Op::Count(cut) => self.count(cut, gate),
            Op::Pack(cut, element) => self.pack(cut, element, gate),
            Op::PackedLengths => self.packed_lengths(gate),
            Op::Distribute(cut, element) => self.distribute(cut, element),
            Op::Index(cut) => self.index(cut),
            Op::Extract(cut, element) => self.extract(cut, element),
            Op::Replace(cut, element) => self.replace(cut, element),
            Op::MakeDescriptor => self.new_descriptor(),
            Op::DescriptorLengths => self.descriptor_lengths(),
            Op::Write => Err(Refused::Fault(Fault::new(FaultNo::UnknownCall))),
        }
    }

    /// `input`: `NoSuchInput` if no input has that number, and the faults of reading it.
    fn input(&self) -> Answer<A>
        requires kinds { AreTaken op.Input self.now.operands }
        ensures { IsTableValue self.now.inputs.now op.Input self.now.operands result }
    {
        match self.input_asked_for() {
            Some(input) => self.value_of_input(input),
            None => Err(Refused::Fault(Fault::new(FaultNo::NoSuchInput))),
        }
    }

    /// `mke_fov`: the descriptor with these lengths.
    fn new_descriptor(&self) -> Answer<A>
        requires kinds { AreTaken op.MakeDescriptor self.now.operands }
        ensures { IsTableValue self.now.inputs.now op.MakeDescriptor self.now.operands result }
    {
        let descriptor = SegDes::from_lengths(self.alloc, self.operands.first.integers())?;
        Ok(Bound::from_descriptor(self.alloc, descriptor)?)
    }

    /// `len_fos`: the lengths of a descriptor.
    fn descriptor_lengths(&self) -> Answer<A>
        requires kinds { AreTaken op.DescriptorLengths self.now.operands }
        ensures { IsTableValue self.now.inputs.now op.DescriptorLengths self.now.operands result }
    {
        let lengths = self.operands.first.descriptor().lengths();
        Ok(Bound::from_integers(Vec::from_slice(self.alloc, lengths)?))
    }
}
