//! The value of an elementwise call, shape by shape.

ghost use Rattle.cvl_base.specs.declared.operation.Op.TheVariants as op;
ghost use Rattle.bound_names.specs.Operands.{AreTaken};
ghost use Rattle.vector_handles.specs.Answers.{IsTableValue};

use crate::answers::{Answer, bound_booleans, bound_integers};
use crate::asked::Asked;
use bound_names::Bound;
use crew::Gate;
use cvl_base::{BoolBinary, Comparison, Element, IntBinary, Memory, Unary};
use elementwise::{bool_from_int, bool1, bool2, compare, int_from_bool, int1, int2, select};
use std::thread::Threads;

impl<R: Threads + Sync, A: Memory> Asked<'_, '_, R, A> {
    /// An operator on two integer vectors.
    pub(crate) fn ints2<G: Gate>(&self, operator: IntBinary, gate: &G) -> Answer<A>
        requires kinds { AreTaken (op.Ints2 operator) self.now.operands }
        ensures { IsTableValue self.now.inputs.now (op.Ints2 operator) self.now.operands result }
    {
        let (a, b) = (
            self.operands.first.integers(),
            self.operands.second.integers(),
        );
        bound_integers(int2(self.rt, self.alloc, self.config, operator, a, b, gate))
    }

    /// An operator on an integer vector.
    pub(crate) fn ints1(&self, operator: Unary) -> Answer<A>
        requires kinds { AreTaken (op.Ints1 operator) self.now.operands }
        ensures { IsTableValue self.now.inputs.now (op.Ints1 operator) self.now.operands result }
    {
        let a = self.operands.first.integers();
        Ok(Bound::from_integers(int1(self.rt, self.alloc, self.config, operator, a)?))
    }

    /// A comparison of two integer vectors.
    pub(crate) fn compare(&self, operator: Comparison) -> Answer<A>
        requires kinds { AreTaken (op.Compare operator) self.now.operands }
        ensures { IsTableValue self.now.inputs.now (op.Compare operator) self.now.operands result }
    {
        let (a, b) = (
            self.operands.first.integers(),
            self.operands.second.integers(),
        );
        bound_booleans(compare(self.rt, self.alloc, self.config, operator, a, b))
    }

    /// An operator on two boolean vectors.
    pub(crate) fn bools2(&self, operator: BoolBinary) -> Answer<A>
        requires kinds { AreTaken (op.Bools2 operator) self.now.operands }
        ensures { IsTableValue self.now.inputs.now (op.Bools2 operator) self.now.operands result }
    {
        let (a, b) = (
            self.operands.first.booleans(),
            self.operands.second.booleans(),
        );
        bound_booleans(bool2(self.rt, self.alloc, self.config, operator, a, b))
    }

    /// An operator on a boolean vector.
    pub(crate) fn bools1(&self, operator: Unary) -> Answer<A>
        requires kinds { AreTaken (op.Bools1 operator) self.now.operands }
        ensures { IsTableValue self.now.inputs.now (op.Bools1 operator) self.now.operands result }
    {
        let a = self.operands.first.booleans();
        Ok(Bound::from_booleans(bool1(self.rt, self.alloc, self.config, operator, a)?))
    }

    /// A choice between two vectors by flags.
    pub(crate) fn choose(&self, element: Element) -> Answer<A>
        requires kinds { AreTaken (op.Choose element) self.now.operands }
        ensures { IsTableValue self.now.inputs.now (op.Choose element) self.now.operands result }
    {
        let flags = self.operands.first.booleans();
        match element {
            Element::Integer => {
                let (a, b) = (
                    self.operands.second.integers(),
                    self.operands.third.integers(),
                );
                bound_integers(select(self.rt, self.alloc, self.config, flags, a, b))
            }
            Element::Boolean => {
                let (a, b) = (
                    self.operands.second.booleans(),
                    self.operands.third.booleans(),
                );
                bound_booleans(select(self.rt, self.alloc, self.config, flags, a, b))
            }
        }
    }

    /// The integers 1 and 0 for the booleans of a vector.
    pub(crate) fn int_from_bool(&self) -> Answer<A>
        requires kinds { AreTaken op.IntFromBool self.now.operands }
        ensures { IsTableValue self.now.inputs.now op.IntFromBool self.now.operands result }
    {
        let a = self.operands.first.booleans();
        Ok(Bound::from_integers(int_from_bool(self.rt, self.alloc, self.config, a)?))
    }

    /// Which integers of a vector aren't 0.
    pub(crate) fn bool_from_int(&self) -> Answer<A>
        requires kinds { AreTaken op.BoolFromInt self.now.operands }
        ensures { IsTableValue self.now.inputs.now op.BoolFromInt self.now.operands result }
    {
        let a = self.operands.first.integers();
        Ok(Bound::from_booleans(bool_from_int(self.rt, self.alloc, self.config, a)?))
    }
}
