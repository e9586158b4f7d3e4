//! The value of a scan or a reduce, of a whole vector or of each segment.

ghost use Rattle.cvl_base.specs.declared.operation.Op.TheVariants as op;
ghost use Rattle.bound_names.specs.Operands.{AreTaken};
ghost use Rattle.vector_handles.specs.Answers.{IsTableValue};

use crate::answers::{Answer, bound_booleans, bound_integers};
use crate::asked::Asked;
use bound_names::Bound;
use crew::Gate;
use cvl_base::{BoolBinary, Cut, IntMonoid, Memory, Value};
use scan_ops::{
    bool_reduce, bool_scan, checked_reduce, checked_scan, checked_seg_reduce, checked_seg_scan,
    int_reduce, int_scan, seg_bool_reduce, seg_bool_scan, seg_int_reduce, seg_int_scan,
};
use std::thread::Threads;

impl<R: Threads + Sync, A: Memory> Asked<'_, '_, R, A> {
    /// A scan of an integer vector.
    pub(crate) fn scan<G: Gate>(&self, operator: IntMonoid, cut: Cut, gate: &G) -> Answer<A>
        requires kinds { AreTaken (op.Scan operator cut) self.now.operands }
        ensures { IsTableValue self.now.inputs.now (op.Scan operator cut) self.now.operands result }
    {
        let (rt, alloc, config) = (self.rt, self.alloc, self.config);
        let a = self.operands.first.integers();
        match cut {
            Cut::Flat => {
                let sums = int_scan(rt, alloc, config, operator, a, gate)?;
                Ok(Bound::from_integers(sums))
            }
            Cut::Segmented => {
                let d = self.operands.second.descriptor();
                bound_integers(seg_int_scan(rt, alloc, config, operator, a, d, gate))
            }
        }
    }

    /// A reduce of an integer vector: one integer, or one for each segment.
    pub(crate) fn reduce<G: Gate>(&self, operator: IntMonoid, cut: Cut, gate: &G) -> Answer<A>
        requires kinds { AreTaken (op.Reduce operator cut) self.now.operands }
        ensures { IsTableValue self.now.inputs.now (op.Reduce operator cut) self.now.operands result }
    {
        let (rt, alloc, config) = (self.rt, self.alloc, self.config);
        let a = self.operands.first.integers();
        match cut {
            Cut::Flat => {
                let sum = int_reduce(rt, alloc, config, operator, a, gate)?;
                Ok(Bound::of_value(Value::Integer(sum)))
            }
            Cut::Segmented => {
                let d = self.operands.second.descriptor();
                bound_integers(seg_int_reduce(rt, alloc, config, operator, a, d, gate))
            }
        }
    }

    /// A scan of a boolean vector.
    pub(crate) fn bool_scan<G: Gate>(&self, operator: BoolBinary, cut: Cut, gate: &G) -> Answer<A>
        requires kinds { AreTaken (op.BoolScan operator cut) self.now.operands }
        ensures { IsTableValue self.now.inputs.now (op.BoolScan operator cut) self.now.operands result }
    {
        let (rt, alloc, config) = (self.rt, self.alloc, self.config);
        let a = self.operands.first.booleans();
        match cut {
            Cut::Flat => {
                let sums = bool_scan(rt, alloc, config, operator, a, gate)?;
                Ok(Bound::from_booleans(sums))
            }
            Cut::Segmented => {
                let d = self.operands.second.descriptor();
                bound_booleans(seg_bool_scan(rt, alloc, config, operator, a, d, gate))
            }
        }
    }

    /// A reduce of a boolean vector: one boolean, or one for each segment.
    pub(crate) fn bool_reduce<G: Gate>(&self, operator: BoolBinary, cut: Cut, gate: &G) -> Answer<A>
        requires kinds { AreTaken (op.BoolReduce operator cut) self.now.operands }
        ensures { IsTableValue self.now.inputs.now (op.BoolReduce operator cut) self.now.operands result }
    {
        let (rt, alloc, config) = (self.rt, self.alloc, self.config);
        let a = self.operands.first.booleans();
        match cut {
            Cut::Flat => {
                let sum = bool_reduce(rt, alloc, config, operator, a, gate)?;
                Ok(Bound::of_value(Value::Boolean(sum)))
            }
            Cut::Segmented => {
                let d = self.operands.second.descriptor();
                bound_booleans(seg_bool_reduce(rt, alloc, config, operator, a, d, gate))
            }
        }
    }

    /// A scan of an integer vector by sums that don't wrap.
    pub(crate) fn checked_scan<G: Gate>(&self, cut: Cut, gate: &G) -> Answer<A>
        requires kinds { AreTaken (op.CheckedScan cut) self.now.operands }
        ensures { IsTableValue self.now.inputs.now (op.CheckedScan cut) self.now.operands result }
    {
        let (rt, alloc, config) = (self.rt, self.alloc, self.config);
        let a = self.operands.first.integers();
        match cut {
            Cut::Flat => bound_integers(checked_scan(rt, alloc, config, a, gate)),
            Cut::Segmented => {
                let d = self.operands.second.descriptor();
                bound_integers(checked_seg_scan(rt, alloc, config, a, d, gate))
            }
        }
    }

    /// The sum of an integer vector that doesn't wrap: one integer, or one for each segment.
    pub(crate) fn checked_reduce<G: Gate>(&self, cut: Cut, gate: &G) -> Answer<A>
        requires kinds { AreTaken (op.CheckedReduce cut) self.now.operands }
        ensures { IsTableValue self.now.inputs.now (op.CheckedReduce cut) self.now.operands result }
    {
        let (rt, alloc, config) = (self.rt, self.alloc, self.config);
        let a = self.operands.first.integers();
        match cut {
            Cut::Flat => {
                let sum = checked_reduce(rt, alloc, config, a, gate)?;
                Ok(Bound::of_value(Value::Integer(sum)))
            }
            Cut::Segmented => {
                let d = self.operands.second.descriptor();
                bound_integers(checked_seg_reduce(rt, alloc, config, a, d, gate))
            }
        }
    }
}
