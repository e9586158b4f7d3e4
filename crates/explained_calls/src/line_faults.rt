//! What is wrong with a line, in words.

ghost use Rattle.std.specs.Prelude.{◌≡◌, ◌++◌, OnOk};
ghost use Rattle.explained_calls.specs.LineFaults.{line_fault_words};

use crate::argument_counts::put_count_lines;
use crate::bad_lines::put_bad_line;
use crate::bad_numbers::put_bad_number;
use crate::line_parts::parts_of;
use crate::placed_tokens::line_tokens;
use crate::unknown_calls::put_unknown_call;
use cvl_base::{FaultNo, Memory, NoResources, Op, op_of};
use line_reader::line_tokens::before_comment;

/// Appends the explanation of a fault that the script's line alone shows, line by line, each with two spaces before it and a line
/// feed after it. For other faults it appends nothing.
///
/// For a `BadLine`: where the line breaks the form of a line, by the column in bytes, counted from 1, what may stand there, and
/// why what stands there may not; for two names alone, what the line lacks. For an `UnknownCall`: the word, and the call whose
/// name is near; for a name alone what copies it. For a `WrongArgumentCount`: what the call takes, and how many arguments or
/// names it wants and the line has. For a `BadNumber`: the token.
pub fn put_line_fault<A: Memory>(
    alloc: A,
    line: &[u8],
    number: FaultNo,
    text: &mut Vec<u8, A>,
) -> Result<(), NoResources>
    ensures { OnOk result (text.new.items ≡ text.old.items ++ line_fault_words line.now number) }
{
    let tokens = line_tokens(alloc, before_comment(line))?;
    let tokens = tokens.as_slice();
    if number == FaultNo::BadLine {
        return put_bad_line(tokens, text);
    }
    let parts = parts_of(tokens);
    let arguments = parts.arguments.len();
    match number {
        FaultNo::UnknownCall => put_unknown_call(alloc, parts.call, arguments, text),
        FaultNo::WrongArgumentCount => {
            let op = op_of(parts.call).unwrap_or(Op::Write);
            put_count_lines(op, parts.names, arguments, text)
        }
        FaultNo::BadNumber => put_bad_number(parts.arguments, text),
        _ => Ok(()),
    }
}
