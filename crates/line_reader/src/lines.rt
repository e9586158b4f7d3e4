//! Lines of a script.

ghost use Rattle.std.specs.Prelude.{◌≡◌, ◌∷◌, length};
ghost use Rattle.cvl_base.specs.Gives.{Gives};
ghost use Rattle.cvl_base.specs.Faults.{fault};
ghost use Rattle.cvl_base.specs.declared.refused.Refused.TheVariants as refused;
ghost use Rattle.line_reader.specs.Lines.{line_tokens, call_of, form_of, binding, bound_call, one_result, two_results};
ghost use Rattle.line_reader.specs.Lines.{write_line, with_op};

use crate::args::read_args;
use crate::line_tokens::{
    Arguments, LineClasses, Names, before_comment, begins_with_equals, count_passing,
};
use crate::token::first_token;
use cvl_base::name::is_word_text;
use cvl_base::{Call, Fault, FaultNo, Memory, Name, Op, Refused, ResultNames, op_of};

/// Reads one line of a script, without its line feed: nothing on an empty line, else the call that it asks for.
///
/// Its faults, in this order, have no place: `BadLine` if the line has none of the forms of a line, `UnknownCall` if the library
/// has no such call, `WrongArgumentCount`, and `BadNumber` if a number is malformed or does not fit 32 bits. `NoResources` if
/// memory for the arguments is refused.
pub fn read_line<A: Memory>(alloc: A, line: &[u8]) -> Result<Option<Call<A>>, Refused>
    ensures { Gives (λ call. call) result (call_of line.now) }
{
    read_form(alloc, before_comment(line))
}

/// Reads a line without its comment.
fn read_form<A: Memory>(alloc: A, line: &[u8]) -> Result<Option<Call<A>>, Refused>
    ensures { Gives (λ call. call) result (form_of (line_tokens line.now)) }
{
    match first_token::<LineClasses>(line) {
        None => Ok(None),
        Some((first, others)) => {
            if first == b"write".as_slice() && !begins_with_equals(others) {
                read_write(alloc, others)
            } else {
                read_binding(alloc, first, others)
            }
        }
    }
}

/// Reads what stands after `write`.
fn read_write<A: Memory>(alloc: A, names: &[u8]) -> Result<Option<Call<A>>, Refused>
    ensures { Gives (λ call. call) result (write_line (line_tokens names.now)) }
{
    let count = count_passing::<Names>(names).ok_or(fault(FaultNo::BadLine))?;
    with_op(alloc, ResultNames::None, Some(Op::Write), names, count)
}

/// Reads `NAME = CALL ARG ..` or `NAME NAME = CALL ARG ..`, given the first name and what stands after it.
fn read_binding<A: Memory>(
    alloc: A,
    first: &[u8],
    others: &[u8],
) -> Result<Option<Call<A>>, Refused>
    ensures { Gives (λ call. call) result (binding (first.now ∷ line_tokens others.now)) }
{
    let bad_line = fault(FaultNo::BadLine);
    let (second, rest) = first_token::<LineClasses>(others).ok_or(bad_line)?;
    if second == b"=".as_slice() {
        let results = one_result(first).ok_or(bad_line)?;
        read_bound_call(alloc, results, others)
    } else {
        let results = two_results(first, second).ok_or(bad_line)?;
        read_bound_call(alloc, results, rest)
    }
}

/// The one name of a binding.
fn one_result(name: &[u8]) -> Option<ResultNames>
    ensures { result ≡ one_result name.now }
{
    Name::new(name).map(ResultNames::One)
}

/// The two names of a binding; none if they are the same.
fn two_results(first: &[u8], second: &[u8]) -> Option<ResultNames>
    ensures { result ≡ two_results first.now second.now }
{
    let first_name = Name::new(first)?;
    let second_name = Name::new(second)?;
    if first == second {
        return None;
    }
    Some(ResultNames::Two(first_name, second_name))
}

/// Reads `= CALL ARG ..`, after the names that it binds.
fn read_bound_call<A: Memory>(
    alloc: A,
    results: ResultNames,
    bytes: &[u8],
) -> Result<Option<Call<A>>, Refused>
    ensures { Gives (λ call. call) result (bound_call results (line_tokens bytes.now)) }
{
    let bad_line = fault(FaultNo::BadLine);
    let (equals, others) = first_token::<LineClasses>(bytes).ok_or(bad_line)?;
    let (word, args) = first_token::<LineClasses>(others).ok_or(bad_line)?;
    let count = count_passing::<Arguments>(args).ok_or(bad_line)?;
    if equals != b"=".as_slice() || !is_word_text(word) {
        return Err(bad_line);
    }
    with_op(alloc, results, op_of(word), args, count)
}

/// The call with its arguments, of a line whose form is good, from its arguments' tokens and their number.
fn with_op<A: Memory>(
    alloc: A,
    results: ResultNames,
    op: Option<Op>,
    args: &[u8],
    count: usize,
) -> Result<Option<Call<A>>, Refused>
    requires { count ≡ length (line_tokens args.now) }
    ensures { Gives (λ call. call) result (with_op results op (line_tokens args.now)) }
{
    let op = op.ok_or(fault(FaultNo::UnknownCall))?;
    if !op.takes(count) || results.count() != op.binds() {
        return Err(fault(FaultNo::WrongArgumentCount));
    }
    let args = read_args(alloc, args, count)?;
    Ok(Some(Call { results, op, args }))
}

/// A fault of the whole line.
fn fault(number: FaultNo) -> Refused
    ensures { result ≡ refused.Fault (fault number) }
{
    Refused::Fault(Fault::new(number))
}
