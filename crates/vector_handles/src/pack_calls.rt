//! The value of a length, a count or a pack, of a whole vector or of each segment.

ghost use Rattle.std.specs.Prelude.{◌≡◌, ◌≤◌, Some, IfOk, length, slice_get, vec_len};
ghost use Rattle.cvl_base.specs.declared.kind.Kind.TheVariants as kind;
ghost use Rattle.cvl_base.specs.declared.operation.Op.TheVariants as op;
ghost use Rattle.cvl_base.specs.Calls.{cut_by};
ghost use Rattle.cvl_base.specs.Gives.{Gives};
ghost use Rattle.bound_names.specs.Operands.{AreTaken, held_at, kind_held};
ghost use Rattle.vector_handles.specs.Answers.{IsTableValue};
ghost use Rattle.vector_handles.specs.Families.{packed};

use crate::answers::{Answer, bound_booleans, bound_integers};
use crate::asked::Asked;
use bound_names::Bound;
use crew::Gate;
use cvl_base::{Cut, Element, Memory, Refused, Value};
use pack_dist::{count_true, pack, packed_descriptor, seg_count, seg_pack_values};
use std::thread::Threads;

impl<R: Threads + Sync, A: Memory> Asked<'_, '_, R, A> {
    /// The number of elements of a vector.
    pub(crate) fn length(&self, element: Element) -> Answer<A>
        requires kinds { AreTaken (op.Length element) self.now.operands }
        ensures { IsTableValue self.now.inputs.now (op.Length element) self.now.operands result }
    {
        let length = match element {
            Element::Integer => self.operands.first.integers().len(),
            Element::Boolean => self.operands.first.booleans().len(),
        };
        Ok(Bound::of_value(Value::Integer(length as i32)))
    }

    /// The number of true flags, or that of each segment.
    pub(crate) fn count<G: Gate>(&self, cut: Cut, gate: &G) -> Answer<A>
        requires kinds { AreTaken (op.Count cut) self.now.operands }
        ensures { IsTableValue self.now.inputs.now (op.Count cut) self.now.operands result }
    {
        let flags = self.operands.first.booleans();
        match cut {
            Cut::Flat => { Ok(Bound::of_value(Value::Integer(count_true(flags)))) }
            Cut::Segmented => {
                let d = self.operands.second.descriptor();
                let counts = seg_count(self.rt, self.alloc, self.config, flags, d, gate)?;
                Ok(Bound::from_integers(counts))
            }
        }
    }

    /// The elements whose flag is true.
    pub(crate) fn pack<G: Gate>(&self, cut: Cut, element: Element, gate: &G) -> Answer<A>
        requires kinds { AreTaken (op.Pack cut element) self.now.operands }
        ensures { IsTableValue self.now.inputs.now (op.Pack cut element) self.now.operands result }
    {
        let values = self.operands.first;
        match element {
            Element::Integer => bound_integers(self.packed(cut, values.integers(), gate)),
            Element::Boolean => bound_booleans(self.packed(cut, values.booleans(), gate)),
        }
    }

    /// The elements of a vector whose flag is true. The flags and the descriptor are the operands at their places.
    fn packed<T: Copy + Send + Sync, G: Gate>(
        &self,
        cut: Cut,
        values: &[T],
        gate: &G,
    ) -> Result<Vec<T, A>, Refused>
        requires flags { kind_held self.now.operands.second ≡ Some kind.Booleans }
        requires cut { kind_held self.now.operands.third ≡ slice_get (cut_by cut) 0 }
        ensures values { Gives (λ v. v.items) result (packed cut values.now (held_at self.now.operands)) }
        ensures no_longer { IfOk result (λ v. vec_len v ≤ length values.now) }
    {
        let (rt, alloc, config) = (self.rt, self.alloc, self.config);
        let flags = self.operands.second.booleans();
        match cut {
            Cut::Flat => pack(rt, alloc, config, values, flags, gate),
            Cut::Segmented => {
                let d = self.operands.third.descriptor();
                seg_pack_values(rt, alloc, config, values, flags, d, gate)
            }
        }
    }

    /// The descriptor of what a segmented pack keeps.
    pub(crate) fn packed_lengths<G: Gate>(&self, gate: &G) -> Answer<A>
        requires kinds { AreTaken op.PackedLengths self.now.operands }
        ensures { IsTableValue self.now.inputs.now op.PackedLengths self.now.operands result }
    {
        let flags = self.operands.first.booleans();
        let d = self.operands.second.descriptor();
        let packed = packed_descriptor(self.rt, self.alloc, self.config, flags, d, gate)?;
        Ok(Bound::from_descriptor(self.alloc, packed)?)
    }
}
