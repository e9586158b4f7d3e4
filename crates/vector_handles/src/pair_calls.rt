//! The two values of a call that gives two: `nested`.

ghost use Rattle.std.specs.Prelude.{◌≤◌, IfOk, vec_len};
ghost use Rattle.cvl_base.specs.declared.operation.Op.TheVariants as op;
ghost use Rattle.cvl_base.specs.Limits.{most_elements};
ghost use Rattle.bound_names.specs.Names.{AreInLimit};
ghost use Rattle.bound_names.specs.Operands.{AreTaken};
ghost use Rattle.vector_handles.specs.Answers.{IsNestOf, IsTablePair};

use crate::asked::Asked;
use bound_names::Bound;
use cvl_base::{Fault, FaultNo, Memory, Op, Refused};
use segdes::SegDes;
use std::thread::Threads;

impl<R: Threads + Sync, A: Memory> Asked<'_, '_, R, A> {
    /// The two values of a call; `WrongArgumentCount` for every call that gives fewer.
    pub(crate) fn pair(&self, op: Op) -> Result<(Bound<A>, Bound<A>), Refused>
        requires kinds { AreTaken op self.now.operands }
        ensures { IsTablePair self.now.inputs.now op self.now.operands result }
    {
        match op {
            Op::Nested => self.nested(),
            _ => Err(Refused::Fault(Fault::new(FaultNo::WrongArgumentCount))),
        }
    }

    /// `nested`: `NoSuchInput` if no input has that number, and the faults of reading it.
    fn nested(&self) -> Result<(Bound<A>, Bound<A>), Refused>
        requires kinds { AreTaken op.Nested self.now.operands }
        ensures { IsTablePair self.now.inputs.now op.Nested self.now.operands result }
    {
        match self.input_asked_for() {
            Some(input) => bound_nest(self.alloc, self.nest_of(input)),
            None => Err(Refused::Fault(Fault::new(FaultNo::NoSuchInput))),
        }
    }
}

/// The vector and the descriptor that a reader gave, both in the limit, or the reader's refusal.
fn bound_nest<A: Memory>(
    alloc: A,
    answer: Result<(Vec<i32, A>, SegDes<A>), Refused>,
) -> Result<(Bound<A>, Bound<A>), Refused>
    requires { IfOk answer (λ nest. (vec_len nest.0 ≤ most_elements) × AreInLimit nest.1) }
    ensures { IsNestOf (λ nest. (nest.0.items, nest.1)) answer result }
{
    let (values, descriptor) = answer?;
    let descriptor = Bound::from_descriptor(alloc, descriptor)?;
    Ok((Bound::from_integers(values), descriptor))
}
