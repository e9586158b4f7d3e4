//! What a call binds to a name, or to two.

ghost use Rattle.std.specs.Prelude.{◌≡◌};
ghost use Rattle.cvl_base.specs.declared.call.ResultNames.TheVariants as results;
ghost use Rattle.cvl_base.specs.Gives.{Gives, unless};
ghost use Rattle.bound_names.specs.Arguments.{args_fault};
ghost use Rattle.vector_handles.specs.Steps.{both_bound_to, bound_to, performed};

use crate::answers::Answer;
use crate::asked::Asked;
use crate::kept::read_asked_for;
use crate::session::Session;
use bound_names::{Bound, is_room, is_room_for_both, resolve};
use crew::Gate;
use cvl_base::{Arg, Fault, FaultNo, Memory, Name, Op, Refused};
use std::thread::Threads;

impl<A: Memory> Session<A> {
    /// The value of a call, to be bound to a name. Reports the first fault of the arguments, `TooManyNames` if the name is new
    /// and no more may be bound, and then the call's faults. An input that the call names is read and kept, so that the name
    /// shares its numbers.
    pub(crate) fn value_for<R: Threads + Sync, G: Gate>(
        &mut self,
        rt: &R,
        target: &Name,
        op: Op,
        args: &[Arg],
        gate: &G,
    ) -> Answer<A>
        ensures value { Gives (bound_to self.old.names target.now) result
            (unless (args_fault self.old.names op args.now)
            (performed self.old.names self.old.inputs (results.One target.now) op args.now)) }
        ensures session { self.new ≡ self.old }
    {
        let (alloc, config) = (self.alloc, self.config);
        let operands = resolve(&self.names, op, args)?;
        if !is_room(&self.names, target) {
            return Err(Refused::Fault(Fault::new(FaultNo::TooManyNames)));
        }
        read_asked_for(rt, alloc, config, &mut self.inputs, op, &operands)?;
        let inputs = self.inputs.as_slice();
        let asked = Asked {
            rt,
            alloc,
            config,
            inputs,
            operands,
        };
        asked.value(op, gate)
    }

    /// The two values of a call, to be bound to two names. Reports the first fault of the arguments, `WrongArgumentCount` if the
    /// call binds fewer names, `TooManyNames` if the bound names and the new ones are too many, and then the call's faults.
    pub(crate) fn values_for<R: Threads + Sync>(
        &self,
        rt: &R,
        first: &Name,
        second: &Name,
        op: Op,
        args: &[Arg],
    ) -> Result<(Bound<A>, Bound<A>), Refused>
        ensures { Gives (both_bound_to self.now.names first.now second.now) result
            (unless (args_fault self.now.names op args.now)
            (performed self.now.names self.now.inputs (results.Two first.now second.now) op args.now)) }
    {
        let asked = self.asked(rt, op, args)?;
        if op.binds() != 2 {
            return Err(Refused::Fault(Fault::new(FaultNo::WrongArgumentCount)));
        }
        if !is_room_for_both(&self.names, first, second) {
            return Err(Refused::Fault(Fault::new(FaultNo::TooManyNames)));
        }
        asked.pair(op)
    }
}
