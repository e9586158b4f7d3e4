//! A call on a session, once its arguments are right.

ghost use Rattle.std.specs.Prelude.{◌≡◌, IfOk, MatchResult, None, Some};
ghost use Rattle.bound_names.specs.Arguments.{args_fault, argument_at};
ghost use Rattle.bound_names.specs.Operands.{AreTaken, held_at};

use crate::kept::KeptInput;
use crate::session::Session;
use bound_names::{Operands, resolve};
use cvl_base::{Arg, Config, Fault, Memory, Op};

/// The values of a call's arguments, the session's inputs, and what a kernel takes besides. The names and the inputs have
/// lifetimes of their own, so that an input can be read once the arguments are found.
#[derive(Drop)]
pub(crate) struct Asked<'a, 'n, R, A: Memory> {
    pub(crate) rt: &'a R,
    pub(crate) alloc: A,
    pub(crate) config: Config,
    pub(crate) inputs: &'a [KeptInput<A>],
    pub(crate) operands: Operands<'n, A>,
}

impl<A: Memory> Session<A> {
    /// A call with these arguments, or their first fault.
    pub(crate) fn asked<'a, R>(
        &'a self,
        rt: &'a R,
        op: Op,
        args: &[Arg],
    ) -> Result<Asked<'a, 'a, R, A>, Fault>
        ensures fault { MatchResult result
            (λ _. args_fault self.now.names op args.now ≡ None)
            (λ fault. args_fault self.now.names op args.now ≡ Some fault) }
        ensures values { IfOk result (λ asked. held_at asked.operands ≡ argument_at self.now.names args.now) }
        ensures kinds { IfOk result (λ asked. AreTaken op asked.operands) }
        ensures inputs { IfOk result (λ asked. asked.inputs.now ≡ self.now.inputs) }
    {
        Ok(Asked {
            rt,
            alloc: self.alloc,
            config: self.config,
            inputs: self.inputs.as_slice(),
            operands: resolve(&self.names, op, args)?,
        })
    }
}
