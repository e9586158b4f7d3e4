//! Runs of scripts.

ghost use Rattle.std.specs.Prelude.{◌≡◌, ◌^◌, ◌<◌, ◌-◌, ◌≤◌, length, Result};
ghost use Rattle.cvl_base.specs.declared.fault.Fault.{Fault};
ghost use Rattle.cvl_base.specs.Gives.{Gives};
ghost use Rattle.cvl_base.specs.Limits.{most_script_bytes};
ghost use Rattle.vector_handles.specs.LongWrites.{text_written};
ghost use Rattle.vector_handles.specs.Names.{Entries};
ghost use Rattle.vector_handles.specs.Steps.{Stepped};
ghost use Rattle.script_runs.specs.Ends.{AtEnd, AtFault, Runs};
ghost use Rattle.script_runs.specs.LineRuns.{LineRuns, refused_at, with_text};
ghost use Rattle.script_runs.specs.Meaning.{meaning, from_line, line_step, lines_of, names_left};

use crate::lines::next_line;
use crate::long_texts::run_long_write;
use crate::puts::put_all;
use crate::sink::Sink;
use crate::stop::Stop;
use crew::{Gate, OpenGate};
use cvl_base::limits::MOST_SCRIPT_BYTES;
use cvl_base::{Config, Fault, FaultNo, Memory, Refused};
use line_reader::read_line;
use std::thread::Threads;
use vector_handles::{Input, Session, WrittenText};

fn stop_of(refused: Refused, number: u32) -> Stop
    ensures { result ≡ refused_at number refused }
{
    match refused {
        Refused::Fault(fault) => Stop::Script {
            line: number,
            fault,
        },
        Refused::NoResources => Stop::NoResources { line: number },
    }
}

/// Puts the text of a write into the sink: whole, or piece by piece if a vector is long.
fn run_write<R: Threads + Sync, A: Memory, S: Sink>(
    rt: &R,
    alloc: A,
    written: Result<WrittenText<'_, A>, Refused>,
    number: u32,
    sink: &mut S,
) -> Result<(), Stop>
    requires { (S.seen sink.old).failed_puts < 2 ^ 64 - 1 }
    ensures { (meaning : Result (Stepped A) Fault) (names : Entries A) →
        Gives (λ text. with_text names (text_written text)) written.entry meaning →
        LineRuns number meaning names (S.seen sink.old) (S.seen sink.new) result }
{
    match written {
        Err(refused) => Err(stop_of(refused, number)),
        Ok(WrittenText::Long(write)) => run_long_write(rt, alloc, &write, number, sink),
        Ok(WrittenText::Whole(text)) => match put_all(sink, text.as_slice()) {
            Ok(()) => Ok(()),
            Err(_) => Err(Stop::WriteFailed { line: number }),
        },
    }
}

/// Runs the line of this number, from 1 on, and puts its text into the sink.
fn run_line<R: Threads + Sync, A: Memory, S: Sink, G: Gate>(
    rt: &R,
    alloc: A,
    session: &mut Session<A>,
    line: &[u8],
    number: u32,
    sink: &mut S,
    gate: &G,
) -> Result<(), Stop>
    requires { (S.seen sink.old).failed_puts < 2 ^ 64 - 1 }
    ensures runs { LineRuns number (line_step session.old.names session.old.inputs line.now) session.new.names
        (S.seen sink.old) (S.seen sink.new) result }
    ensures inputs { session.new.inputs ≡ session.old.inputs }
    ensures refused { AtFault result (session.new.names ≡ session.old.names) }
{
    let call = match read_line(alloc, line) {
        Err(refused) => return Err(stop_of(refused, number)),
        Ok(None) => return Ok(()),
        Ok(Some(call)) => call,
    };
    if let Some(written) = session.written(rt, &call) {
        return run_write(rt, alloc, written, number, sink);
    }
    match session.apply_gated(rt, &call, gate) {
        // a binding shows nothing
        Ok(_) => Ok(()),
        Err(refused) => Err(stop_of(refused, number)),
    }
}

/// Runs the lines of a script on a session, in order, up to the first that stops the run, and puts their texts into the sink.
/// Lines count from 1.
///
/// The sink and the answer are those of [`run`], but the run starts with the session's names. At the end of the script, or if a
/// line has a fault, the session has the names that the lines leave. A script has at most 1,048,576 bytes.
pub fn run_lines<R: Threads + Sync, A: Memory, S: Sink, G: Gate>(
    rt: &R,
    alloc: A,
    session: &mut Session<A>,
    script: &[u8],
    sink: &mut S,
    gate: &G,
) -> Result<(), Stop>
    requires failures { (S.seen sink.old).failed_puts < 2 ^ 64 - 1 }
    requires short { length script.now ≤ most_script_bytes }
    ensures runs { Runs (from_line 1 session.old.names session.old.inputs (lines_of script.now))
        (S.seen sink.old) (S.seen sink.new) result }
    ensures names { AtEnd result (session.new.names ≡
        names_left session.old.names session.old.inputs (lines_of script.now)) }
    ensures inputs { session.new.inputs ≡ session.old.inputs }
{
    let mut number = 1;
    let mut rest = Some(script);
    while let Some(bytes) = rest {
        let (line, others) = next_line(bytes);
        run_line(rt, alloc, session, line, number, sink, gate)?;
        number += 1;
        rest = others;
    }
    Ok(())
}

/// Runs a script over its inputs and writes its text to the sink.
///
/// If memory does not run out and the sink does not fail, the sink takes exactly the text of the script's meaning, and the answer
/// is exactly its first fault, for any tile length and number of workers. If memory is refused, or the sink fails, it has taken
/// all text of the lines before the one that the answer names, and a beginning of that line's text, which is not the whole if the
/// sink failed. No call is retried.
pub fn run<R: Threads + Sync, A: Memory, S: Sink>(
    rt: &R,
    alloc: A,
    config: Config,
    script: &[u8],
    inputs: Vec<Input<A>, A>,
    sink: &mut S,
) -> Result<(), Stop>
    requires { (S.seen sink.old).failed_puts < 2 ^ 64 - 1 }
    ensures { Runs (meaning script.now inputs.items) (S.seen sink.old) (S.seen sink.new) result }
{
    run_gated(rt, alloc, config, script, inputs, sink, &OpenGate)
}

/// The same as [`run`], but in each call that races for tiles, the workers pass a gate at the points of their way through a tile.
/// The gate changes neither the text nor the answer, so that a test may hold workers at it.
pub fn run_gated<R: Threads + Sync, A: Memory, S: Sink, G: Gate>(
    rt: &R,
    alloc: A,
    config: Config,
    script: &[u8],
    inputs: Vec<Input<A>, A>,
    sink: &mut S,
    gate: &G,
) -> Result<(), Stop>
    requires { (S.seen sink.old).failed_puts < 2 ^ 64 - 1 }
    ensures { Runs (meaning script.now inputs.items) (S.seen sink.old) (S.seen sink.new) result }
{
    if script.len() > MOST_SCRIPT_BYTES {
        return Err(Stop::Script {
            line: 0,
            fault: Fault::new(FaultNo::ScriptTooLong),
        });
    }
    match Session::new(alloc, config, inputs) {
        Err(_) => Err(Stop::NoResources { line: 0 }),
        Ok(mut session) => run_lines(rt, alloc, &mut session, script, sink, gate),
    }
}
