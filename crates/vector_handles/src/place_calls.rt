//! The value of a distribute, an index, an extract or a replace, of a whole vector or of each segment.

ghost use Rattle.std.specs.Prelude.{◌≡◌, Some, IfOk, length, vec_len};
ghost use Rattle.cvl_base.specs.declared.kind.Kind.TheVariants as kind;
ghost use Rattle.cvl_base.specs.declared.operation.Op.TheVariants as op;
ghost use Rattle.cvl_base.specs.Gives.{Gives};
ghost use Rattle.cvl_base.specs.SegmentedCalls.{seg_replace_of};
ghost use Rattle.bound_names.specs.Arguments.{integers_in, lengths_in};
ghost use Rattle.bound_names.specs.Operands.{AreTaken, held, kind_held};
ghost use Rattle.vector_handles.specs.Answers.{IsTableValue};

use crate::answers::{Answer, bound_boolean, bound_booleans, bound_integer, bound_integers};
use crate::asked::Asked;
use cvl_base::{Cut, Element, Memory, Refused};
use pack_dist::{
    distribute, extract, index, replace, seg_distribute, seg_extract, seg_index, seg_replace,
};
use std::thread::Threads;

impl<R: Threads + Sync, A: Memory> Asked<'_, '_, R, A> {
    /// Copies of one value, or of one for each segment.
    pub(crate) fn distribute(&self, cut: Cut, element: Element) -> Answer<A>
        requires kinds { AreTaken (op.Distribute cut element) self.now.operands }
        ensures { IsTableValue self.now.inputs.now (op.Distribute cut element) self.now.operands result }
    {
        let (rt, alloc, config) = (self.rt, self.alloc, self.config);
        let (first, second) = (self.operands.first, self.operands.second);
        match (cut, element) {
            (Cut::Flat, Element::Integer) => {
                bound_integers(distribute(rt, alloc, config, first.integer(), second.integer()))
            }
            (Cut::Flat, Element::Boolean) => {
                bound_booleans(distribute(rt, alloc, config, first.boolean(), second.integer()))
            }
            (Cut::Segmented, Element::Integer) => {
                let (values, d) = (first.integers(), second.descriptor());
                bound_integers(seg_distribute(rt, alloc, config, values, d))
            }
            (Cut::Segmented, Element::Boolean) => {
                let (values, d) = (first.booleans(), second.descriptor());
                bound_booleans(seg_distribute(rt, alloc, config, values, d))
            }
        }
    }

    /// Numbers from a first one on, by a stride, or such numbers in each segment.
    pub(crate) fn index(&self, cut: Cut) -> Answer<A>
        requires kinds { AreTaken (op.Index cut) self.now.operands }
        ensures { IsTableValue self.now.inputs.now (op.Index cut) self.now.operands result }
    {
        let (rt, alloc, config) = (self.rt, self.alloc, self.config);
        let (first, second) = (self.operands.first, self.operands.second);
        let third = self.operands.third;
        match cut {
            Cut::Flat => {
                let (init, stride) = (first.integer(), second.integer());
                bound_integers(index(rt, alloc, config, init, stride, third.integer()))
            }
            Cut::Segmented => {
                let (inits, strides) = (first.integers(), second.integers());
                bound_integers(seg_index(rt, alloc, config, inits, strides, third.descriptor()))
            }
        }
    }

    /// The element at an index, or the one at the index of each segment.
    pub(crate) fn extract(&self, cut: Cut, element: Element) -> Answer<A>
        requires kinds { AreTaken (op.Extract cut element) self.now.operands }
        ensures { IsTableValue self.now.inputs.now (op.Extract cut element) self.now.operands result }
    {
        let (first, second) = (self.operands.first, self.operands.second);
        let third = self.operands.third;
        match (cut, element) {
            (Cut::Flat, Element::Integer) => {
                bound_integer(extract(first.integers(), second.integer()))
            }
            (Cut::Flat, Element::Boolean) => {
                bound_boolean(extract(first.booleans(), second.integer()))
            }
            (Cut::Segmented, Element::Integer) => {
                let (places, d) = (second.integers(), third.descriptor().as_lengths());
                bound_integers(seg_extract(self.alloc, first.integers(), places, &d))
            }
            (Cut::Segmented, Element::Boolean) => {
                let (places, d) = (second.integers(), third.descriptor().as_lengths());
                bound_booleans(seg_extract(self.alloc, first.booleans(), places, &d))
            }
        }
    }

    /// A vector with the element at an index changed, or the one at the index of each segment.
    pub(crate) fn replace(&self, cut: Cut, element: Element) -> Answer<A>
        requires kinds { AreTaken (op.Replace cut element) self.now.operands }
        ensures { IsTableValue self.now.inputs.now (op.Replace cut element) self.now.operands result }
    {
        let (first, second) = (self.operands.first, self.operands.second);
        let third = self.operands.third;
        match (cut, element) {
            (Cut::Flat, Element::Integer) => {
                let (place, value) = (second.integer(), third.integer());
                bound_integers(replace(self.alloc, first.integers(), place, value))
            }
            (Cut::Flat, Element::Boolean) => {
                let (place, value) = (second.integer(), third.boolean());
                bound_booleans(replace(self.alloc, first.booleans(), place, value))
            }
            (Cut::Segmented, Element::Integer) => {
                bound_integers(self.with_values(first.integers(), third.integers()))
            }
            (Cut::Segmented, Element::Boolean) => {
                bound_booleans(self.with_values(first.booleans(), third.booleans()))
            }
        }
    }

    /// A vector with these values at the indexes of its segments. The indexes and the descriptor are the operands at
    /// their places.
    fn with_values<T: Copy>(&self, vector: &[T], values: &[T]) -> Result<Vec<T, A>, Refused>
        requires places { kind_held self.now.operands.second ≡ Some kind.Integers }
        requires descriptor { kind_held self.now.operands.fourth ≡ Some kind.Descriptor }
        ensures values { Gives (λ v. v.items) result
            (seg_replace_of vector.now (integers_in (held self.now.operands.second)) values.now
            (lengths_in (held self.now.operands.fourth))) }
        ensures as_long { IfOk result (λ v. vec_len v ≡ length vector.now) }
    {
        let places = self.operands.second.integers();
        let d = self.operands.fourth.descriptor();
        seg_replace(self.alloc, vector, places, values, &d.as_lengths())
    }
}
