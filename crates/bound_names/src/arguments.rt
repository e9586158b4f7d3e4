//! The arguments of a call, found and checked once.

ghost use Rattle.std.specs.Prelude.{◌≡◌, None, Some, IfOk, MatchResult, option_copied, slice_get};
ghost use Rattle.bound_names.specs.Arguments.{arg_value, args_fault, argument_at, kind_fault, place_fault};
ghost use Rattle.bound_names.specs.Operands.{AreTaken, held, held_at};
ghost use Rattle.cvl_base.specs.Calls.{accepts_of};

use crate::names::{Names, bound_to};
use crate::operands::{Operand, Operands};
use cvl_base::{Arg, Fault, FaultNo, Kind, Memory, Op};

/// What each argument of a call holds, or their first fault: `WrongArgumentCount` if the call takes more or fewer of them; then
/// for each from left to right `UnknownName` if its name is not bound, and `WrongKind` if the call takes no value of that kind at
/// that place. Source: this library's script format.
pub fn resolve<'a, A: Memory>(
    names: &'a Names<A>,
    op: Op,
    args: &[Arg],
) -> Result<Operands<'a, A>, Fault>
    ensures fault { MatchResult result
        (λ _. args_fault names.now.entries op args.now ≡ None)
        (λ fault. args_fault names.now.entries op args.now ≡ Some fault) }
    ensures values { IfOk result (λ operands. held_at operands ≡ argument_at names.now.entries args.now) }
    ensures kinds { IfOk result (λ operands. AreTaken op operands) }
{
    if !op.takes(args.len()) {
        return Err(Fault::new(FaultNo::WrongArgumentCount));
    }
    let first = operand_at(names, op, args, 0)?;
    let second = operand_at(names, op, args, 1)?;
    let third = operand_at(names, op, args, 2)?;
    let fourth = operand_at(names, op, args, 3)?;
    let fifth = operand_at(names, op, args, 4)?;
    Ok(Operands {
        first,
        second,
        third,
        fourth,
        fifth,
    })
}

/// What the argument at a place holds, if there is one, or its fault.
fn operand_at<'a, A: Memory>(
    names: &'a Names<A>,
    op: Op,
    args: &[Arg],
    place: usize,
) -> Result<Operand<'a, A>, Fault>
    ensures fault { MatchResult result
        (λ _. place_fault names.now.entries op args.now place ≡ None)
        (λ fault. place_fault names.now.entries op args.now place ≡ Some fault) }
    ensures value { IfOk result (λ operand. held operand ≡ argument_at names.now.entries args.now place) }
{
    let Some(arg) = argument(args, place) else {
        return Ok(Operand::Absent);
    };
    let operand = operand_of(names, arg);
    match fault_of_kind(op, args.len(), place, operand.kind()) {
        None => Ok(operand),
        Some(fault) => Err(fault),
    }
}

/// The argument at a place, if there is one: `get` with a contract of one equation, which keeps the proofs above short.
fn argument(args: &[Arg], place: usize) -> Option<&Arg>
    ensures { option_copied result ≡ slice_get args.now place }
{
    args.get(place)
}

/// What an argument holds; nothing if its name is not bound.
fn operand_of<'a, A: Memory>(names: &'a Names<A>, arg: &Arg) -> Operand<'a, A>
    ensures { held result ≡ arg_value names.now.entries arg.now }
{
    match arg {
        Arg::Name(name) => match bound_to(names, name) {
            Some(bound) => Operand::Bound(bound),
            None => Operand::Absent,
        },
        Arg::Integer(n) => Operand::Integer(*n),
        Arg::Boolean(b) => Operand::Boolean(*b),
    }
}

/// The fault of an argument of this kind at a place among `count`, or of a name that is not bound.
fn fault_of_kind(op: Op, count: usize, place: usize, kind: Option<Kind>) -> Option<Fault>
    ensures { result ≡ kind_fault (accepts_of op count place) kind }
{
    match kind {
        None => Some(Fault::new(FaultNo::UnknownName)),
        Some(kind) => {
            if op.accepts(count, place, kind) {
                None
            } else {
                Some(Fault::new(FaultNo::WrongKind))
            }
        }
    }
}
