//! The arguments of a line.

ghost use Rattle.std.specs.Prelude.{◌≡◌};
ghost use Rattle.cvl_base.specs.Gives.{Gives};
ghost use Rattle.line_reader.specs.Lines.{arg_of, args_of, line_tokens};

use crate::line_tokens::{LineClasses, is_boolean_token};
use crate::number::number;
use crate::token::first_token;
use cvl_base::{Arg, Args, Fault, FaultNo, Memory, Name, Refused};

/// What an argument's token stands for; none for a number token that is malformed or does not fit 32 bits.
fn arg_of(token: &[u8]) -> Option<Arg>
    ensures { result ≡ arg_of token.now }
{
    if let Some(name) = Name::new(token) {
        return Some(Arg::Name(name));
    }
    if is_boolean_token(token) {
        return Some(Arg::Boolean(token == b"T".as_slice()));
    }
    number(token).map(Arg::Integer)
}

/// The arguments that the tokens stand for; room is made for `count` of them before the first is read.
#[tactic(auto, using(crate::proofs::Arguments::begun, crate::proofs::Arguments::one_read, crate::proofs::Arguments::none_read, crate::proofs::Arguments::all_read))]
pub(crate) fn read_args<A: Memory>(alloc: A, bytes: &[u8], count: usize) -> Result<Args<A>, Refused>
    ensures { Gives (λ args. args) result (args_of (line_tokens bytes.now)) }
{
    let mut args = Vec::with_capacity(alloc, count)?;
    let mut rest = bytes;
    while let Some((token, others)) = first_token::<LineClasses>(rest) {
        let Some(arg) = arg_of(token) else {
            return Err(Refused::Fault(Fault::new(FaultNo::BadNumber)));
        };
        args.push(arg)?;
        rest = others;
    }
    Ok(Args::from_vec(args))
}
