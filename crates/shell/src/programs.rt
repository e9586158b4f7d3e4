//! The whole program, over the host that you give it.

ghost use Rattle.std.specs.Prelude.{◌≡◌, ◌^◌, ◌<◌, ◌-◌, true, false};
ghost use Rattle.clap.specs.Walk.{texts};
ghost use Rattle.script_runs.specs.Ends.{EndsAs};
ghost use Rattle.script_runs.specs.Meaning.{meaning};
ghost use Rattle.shell.specs.ProgramParts.{Closes, ClosesAndExplains, PutsShown};
ghost use Rattle.shell.specs.ProgramParts.{RunsAndExplains, RunsOrMisses, TellsSome};
ghost use Rattle.shell.specs.Programs.{PerformsAsAsked};

use crate::endings::{COMMAND_LINE, finish, tell_stop};
use crate::explaining::{miss, run_explained, starve};
use crate::files::{Unread, read_inputs, room_for};
use crate::host::Host;
use crate::whole_files::FileRoom;
use clap::error::ErrorKind;
use command_line::{Words, WordsFault, read_words};
use crew::{Gate, OpenGate};
use cvl_base::{Config, Memory};
use script_runs::{Stop, put_all, run_gated};
use std::thread::Threads;
use vector_handles::Input;

/// The stop without memory before the first line.
pub(crate) const STARVED: Stop = Stop::NoResources { line: 0 };

/// Writes clap's text of the help or the version to standard output.
fn put_shown<A: Memory, H: Host>(alloc: A, shown: &clap::Error, host: &mut H) -> Result<(), Stop>
    requires { (H.seen host.old).failed_puts < 2 ^ 64 - 1 }
    ensures { PutsShown (H.seen host.old) (H.seen host.new) result }
{
    match format!(in alloc; "{shown}") {
        Err(_) => Err(STARVED),
        Ok(text) => match put_all(host, text.as_bytes()) {
            Ok(()) => Ok(()),
            Err(_) => Err(Stop::WriteFailed { line: 0 }),
        },
    }
}

/// Writes to standard error clap's text of a refused command line, or that memory ran out.
fn tell_refused<A: Memory, H: Host>(alloc: A, error: &clap::Error, host: &mut H)
    ensures { TellsSome (H.seen host.old) (H.seen host.new) }
{
    match format!(in alloc; "{error}") {
        Ok(text) => host.put_error(text.as_bytes()),
        Err(_) => tell_stop(&STARVED, host),
    }
}

/// Runs the script, flushes its text, reports why the run stopped, and returns the status.
fn run_script<R: Threads + Sync, A: Memory, H: Host, G: Gate>(
    rt: &R,
    alloc: A,
    config: Config,
    script: &[u8],
    inputs: Vec<Input<A>, A>,
    host: &mut H,
    gate: &G,
) -> u8
    requires failures { (H.seen host.old).failed_puts < 2 ^ 64 - 1 }
    requires flushes { (H.seen host.old).failed_flushes < 2 ^ 64 - 1 }
    ensures { Closes (EndsAs (meaning script.now inputs.items)) (H.seen host.old) (H.seen host.new) result }
{
    let answer = run_gated(rt, alloc, config, script, inputs, host, gate);
    finish(answer, host)
}

/// Runs the script over the inputs that were read, and explains why it stopped if the words ask for that.
fn run_inputs<R: Threads + Sync, A: Memory, H: Host, G: Gate>(
    rt: &R,
    alloc: A,
    words: &Words<'_>,
    script: &[u8],
    inputs: Vec<Input<A>, A>,
    host: &mut H,
    gate: &G,
) -> u8
    requires failures { (H.seen host.old).failed_puts < 2 ^ 64 - 1 }
    requires flushes { (H.seen host.old).failed_flushes < 2 ^ 64 - 1 }
    ensures plain { words.now.explain ≡ false →
        Closes (EndsAs (meaning script.now inputs.items)) (H.seen host.old) (H.seen host.new) result }
    ensures explaining { words.now.explain ≡ true →
        ClosesAndExplains A (texts words.now.inputs.items) script.now inputs.items (H.seen host.old) (H.seen host.new) result }
{
    if words.explain {
        run_explained(rt, alloc, words, script, inputs, host, gate)
    } else {
        run_script(rt, alloc, words.config, script, inputs, host, gate)
    }
}

/// Reads the files of the script and of its inputs, and runs the script.
fn run_files<R: Threads + Sync, A: Memory, H: Host, G: Gate>(
    rt: &R,
    alloc: A,
    words: &Words<'_>,
    host: &mut H,
    gate: &G,
) -> u8
    requires failures { (H.seen host.old).failed_puts < 2 ^ 64 - 1 }
    requires flushes { (H.seen host.old).failed_flushes < 2 ^ 64 - 1 }
    ensures plain { words.now.explain ≡ false →
        RunsOrMisses A words.now.script.now (texts words.now.inputs.items) (H.seen host.old) (H.seen host.new) result }
    ensures explaining { words.now.explain ≡ true →
        RunsAndExplains A words.now.script.now (texts words.now.inputs.items) (H.seen host.old) (H.seen host.new) result }
{
    let Ok(room) = room_for(alloc, words) else {
        return starve(words.explain, host);
    };
    match host.read_file(words.script, FileRoom::new(rt, alloc, words.config)) {
        Err(why) => {
            let name = words.script;
            miss(words.explain, Unread { name, why }, room.line, host)
        }
        Ok(text) => match read_inputs(
            rt,
            alloc,
            words.config,
            words.inputs.as_slice(),
            room.inputs,
            host,
        ) {
            Err(unread) => miss(words.explain, unread, room.line, host),
            Ok(inputs) => run_inputs(rt, alloc, words, text.as_slice(), inputs, host, gate),
        },
    }
}

/// The whole program: reads the command line, the script and its inputs, runs the script, and returns the status.
///
/// `words` is the command line as `read_words` takes it, the program's own name first. The program reads the script's file whole,
/// then each input's, each once and in that order, before the script runs; it reads no other file. The script writes to standard
/// output, which is then flushed; if the run stopped, a line on standard error says why. Help and the version go to standard
/// output, and clap's text of a refused command line to standard error. The first file that cannot be read, or that does not fit
/// into memory, is reported as `cannot read NAME`; no file is read after it, and nothing runs. The line is `line 0: no resources`
/// if there is no memory for the words, for the text of help or version, or for the list of inputs and the line about a file,
/// which are made ready before the first read. It is `line 0: write failed` if that text cannot be written or the flush fails;
/// but a run that stopped by itself keeps its own line and status.
///
/// With `--explain`, an explanation of the stop follows on standard error, as [`explain`](crate::explain) gives it, or of why a
/// file cannot be read; nothing else changes, and a run that does not stop takes no more memory. If memory for the explanation is
/// refused, the line `cvl: no memory to explain this` stands in its place: only that of a script's fault takes memory. Nothing is
/// explained of help and the version, nor if there is no memory for the words, since then it is not known that they ask for it.
///
/// There is always a message: a stop's line takes no memory, and that of a file has its room before the first read. Without
/// memory for clap's text of a refused command line, it is `line 0: no resources`.
///
/// The status is 0 without a fault, and after help and the version; 1 after a fault of the script; 2 if the command line is
/// refused; and 3 if a file cannot be read, memory is refused or a write fails.
pub fn program<'a, R: Threads + Sync + AllocGlobal, A: Memory, H: Host>(
    rt: &R,
    alloc: A,
    words: &'a [&'a str],
    host: &mut H,
) -> u8
    requires failures { (H.seen host.old).failed_puts < 2 ^ 64 - 1 }
    requires flushes { (H.seen host.old).failed_flushes < 2 ^ 64 - 1 }
    ensures { PerformsAsAsked A (texts words.entry.now)
        (H.seen host.old) (H.seen host.new) result }
{
    program_gated(rt, alloc, words, host, &OpenGate)
}

/// The same as [`program`], but in each call that races for tiles, the workers pass a gate at the points of their way through a
/// tile.
pub fn program_gated<'a, R: Threads + Sync + AllocGlobal, A: Memory, H: Host, G: Gate>(
    rt: &R,
    alloc: A,
    words: &'a [&'a str],
    host: &mut H,
    gate: &G,
) -> u8
    requires failures { (H.seen host.old).failed_puts < 2 ^ 64 - 1 }
    requires flushes { (H.seen host.old).failed_flushes < 2 ^ 64 - 1 }
    ensures { PerformsAsAsked A (texts words.entry.now)
        (H.seen host.old) (H.seen host.new) result }
{
    match read_words(rt.alloc(), words) {
        Ok(words) => run_files(rt, alloc, &words, host, gate),
        Err(WordsFault::NoResources) => finish(Err(STARVED), host),
        Err(WordsFault::Refused(error)) => match error.kind() {
            ErrorKind::DisplayHelp | ErrorKind::DisplayVersion => {
                let answer = put_shown(alloc, &error, host);
                finish(answer, host)
            }
            _ => {
                tell_refused(alloc, &error, host);
                COMMAND_LINE
            }
        },
    }
}
