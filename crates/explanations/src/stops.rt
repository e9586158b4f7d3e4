//! Explanations of why a script stopped.

ghost use Rattle.std.specs.Prelude.{◌≡◌, ◌++◌, IfOk, OnOk};
ghost use Rattle.explained_calls.specs.Sentences.{indented};
ghost use Rattle.explanations.specs.ArgumentLines.{names_in};
ghost use Rattle.explanations.specs.Explained.{explained, explained_fault};
ghost use Rattle.explanations.specs.Explained.{explained_line, quoted, too_long_words};
ghost use Rattle.line_reader.specs.Lines.{call_of};

use crate::bindings::{Binding, stopped_at};
use crate::call_faults::put_call;
use cvl_base::{Fault, Memory, NoResources, Refused};
use explained_calls::{Front, Line, Number, Words, put_line_fault, said};
use line_reader::read_line;
use script_runs::Stop;
use std::thread::Threads;
use vector_handles::Session;

/// The explanation if memory ran out: what to try.
pub const MEMORY: &[u8] =
    b"  memory ran out: try shorter vectors, bind fewer names, or allow the process more memory\n";

/// The explanation if a write failed: what to try.
pub const WRITE: &[u8] =
    b"  standard output took no more: is the disk full, or did the reader of a pipe close it?\n";

/// How many bytes of a line to quote.
const MOST_TOLD: usize = 200;

/// Appends a line of the script, with its number; of a long line the first 200 bytes.
fn put_quoted<A: Memory>(number: u32, line: &[u8], text: &mut Vec<u8, A>) -> Result<(), NoResources>
    ensures { OnOk result (text.new.items ≡ text.old.items ++ quoted number line.now) }
{
    let front = Front(MOST_TOLD, line);
    Line(said![Number(number), b" | ", front]).put(text)
}

/// Appends how long a script is, if it is too long.
fn put_too_long<A: Memory>(script: &[u8], text: &mut Vec<u8, A>) -> Result<(), NoResources>
    ensures { OnOk result (text.new.items ≡ text.old.items ++ indented (too_long_words script.now)) }
{
    let end = b" bytes, and may have at most 1048576";
    Line(said![b"the script has ", Number(script.len()), end]).put(text)
}

/// Appends what is at fault in a line: in its form, or in its call.
fn put_line<R: Threads + Sync, A: Memory>(
    rt: &R,
    alloc: A,
    session: &Session<A>,
    files: &[&str],
    bindings: &[Binding],
    line: &[u8],
    fault: Fault,
    text: &mut Vec<u8, A>,
) -> Result<(), NoResources>
    ensures { OnOk result (text.new.items ≡ text.old.items
        ++ explained_line session.now.names (names_in files.now) session.now.inputs bindings.now
        line.now (call_of line.now) fault) }
{
    match read_line(alloc, line) {
        Err(Refused::NoResources) => Err(NoResources),
        Err(Refused::Fault(_)) => put_line_fault(alloc, line, fault.number, text),
        Ok(None) => Ok(()),
        Ok(Some(call)) => put_call(rt, alloc, session, files, bindings, &call, fault, text),
    }
}

/// Appends the explanation of a fault of the script at a line.
fn put_fault<R: Threads + Sync, A: Memory>(
    rt: &R,
    alloc: A,
    session: &Session<A>,
    files: &[&str],
    script: &[u8],
    line: u32,
    fault: Fault,
    text: &mut Vec<u8, A>,
) -> Result<(), NoResources>
    ensures { OnOk result (text.new.items ≡ text.old.items
        ++ explained_fault session.now.names (names_in files.now) session.now.inputs script.now line fault) }
{
    if line == 0 {
        return put_too_long(script, text);
    }
    let stopped = stopped_at(alloc, script, line)?;
    put_quoted(line, stopped.line, text)?;
    let bindings = stopped.bindings.as_slice();
    put_line(
        rt,
        alloc,
        session,
        files,
        bindings,
        stopped.line,
        fault,
        text,
    )
}

/// Explains that a script is too long: how long it is, and how long it may be.
pub fn explain_too_long<A: Memory>(alloc: A, script: &[u8]) -> Result<Vec<u8, A>, NoResources>
    ensures { IfOk result (λ text. text.items ≡ indented (too_long_words script.now)) }
{
    let mut text = Vec::new(alloc);
    put_too_long(script, &mut text)?;
    Ok(text)
}

/// Explains why a script stopped, in lines of text that each begin with two spaces and end with a line feed.
///
/// `session` is that of the run, as it is at the stop, and `files` are the names of its inputs' files, in order. For a fault
/// of the script it shows the script's line, which kinds of values the call takes and gives, what each name among the
/// arguments holds and which line bound it, and what is wrong; for a script that is too long, how long it is. If memory ran
/// out or a write failed, it says what to try: [`MEMORY`] or [`WRITE`].
///
/// An input at fault is read once more, by `rt`, to see whether it is a list of numbers. `NoResources` if memory for that or for
/// the text is refused.
pub fn explain<R: Threads + Sync, A: Memory>(
    rt: &R,
    alloc: A,
    session: &Session<A>,
    files: &[&str],
    script: &[u8],
    stop: &Stop,
) -> Result<Vec<u8, A>, NoResources>
    ensures { IfOk result (λ text. text.items
        ≡ explained session.now.names (names_in files.now) session.now.inputs script.now stop.now) }
{
    let mut text = Vec::new(alloc);
    match stop {
        Stop::Script { line, fault } => {
            put_fault(rt, alloc, session, files, script, *line, *fault, &mut text)?;
        }
        Stop::NoResources { .. } => MEMORY.put(&mut text)?,
        Stop::WriteFailed { .. } => WRITE.put(&mut text)?,
    }
    Ok(text)
}
