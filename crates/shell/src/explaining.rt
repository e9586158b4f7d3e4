//! Runs that explain why they stopped.

ghost use Rattle.std.specs.Prelude.{◌≡◌, ◌^◌, ◌<◌, ◌-◌, ◌≤◌, [], List, Some, Err, length, true, false, vec_capacity};
ghost use Rattle.clap.specs.Walk.{texts};
ghost use Rattle.clap.specs.Words.{Text};
ghost use Rattle.cvl_base.specs.Limits.{most_script_bytes};
ghost use Rattle.vector_handles.specs.declared.input.Input.{Input};
ghost use Rattle.script_runs.specs.Hosts.{Tells};
ghost use Rattle.script_runs.specs.declared.stop.Stop.TheVariants as stop;
ghost use Rattle.explanations.specs.Explained.{explained};
ghost use Rattle.shell.specs.ProgramParts.{ClosesAndExplains, Finishes, MissesAndExplains, StarvesAndExplains};
ghost use Rattle.shell.specs.ProgramParts.{TellsStop, text_or_line};
ghost use Rattle.shell.specs.Programs.{unreadable_line};

use crate::endings::{FAILED, FINE, close, finish, status_of, tell_unreadable};
use crate::files::Unread;
use crate::host::Host;
use crate::programs::STARVED;
use crate::read_failures::explained_failure;
use command_line::Words;
use crew::Gate;
use cvl_base::limits::MOST_SCRIPT_BYTES;
use cvl_base::{Fault, FaultNo, Memory, NoResources};
use explanations::{MEMORY, WRITE, explain, explain_too_long};
use script_runs::{Stop, run_lines};
use std::thread::Threads;
use vector_handles::{Input, Session};

/// The line in the place of an explanation for which there is no memory.
const NO_MEMORY: &[u8] = b"cvl: no memory to explain this\n";

/// Writes an explanation to standard error, or the line in its place.
fn put_explanation<A: Memory, H: Host>(text: Result<Vec<u8, A>, NoResources>, host: &mut H)
    ensures { Tells (Some (text_or_line text)) (H.seen host.old) (H.seen host.new) }
{
    match text {
        Ok(text) => host.put_error(text.as_slice()),
        Err(_) => host.put_error(NO_MEMORY),
    }
}

/// Writes to standard error why a script stopped. Only the explanation of its fault takes memory.
fn tell_explained<R: Threads + Sync, A: Memory, H: Host>(
    rt: &R,
    alloc: A,
    session: &Session<A>,
    files: &[&str],
    script: &[u8],
    stop: &Stop,
    host: &mut H,
)
    ensures { TellsStop stop.now (explained session.now.names (texts files.now) session.now.inputs script.now stop.now)
        (H.seen host.old) (H.seen host.new) }
{
    match stop {
        Stop::Script { .. } => {
            put_explanation(explain(rt, alloc, session, files, script, stop), host);
        }
        Stop::NoResources { .. } => host.put_error(MEMORY),
        Stop::WriteFailed { .. } => host.put_error(WRITE),
    }
}

/// Reports that there was no memory before the first line, explains that if it is asked for, and returns the status.
pub(crate) fn starve<H: Host>(explain: bool, host: &mut H) -> u8
    requires { (H.seen host.old).failed_flushes < 2 ^ 64 - 1 }
    ensures plain { explain ≡ false → Finishes (Err (stop.NoResources 0)) (H.seen host.old) (H.seen host.new) result }
    ensures explaining { explain ≡ true → StarvesAndExplains (H.seen host.old) (H.seen host.new) result }
{
    let status = finish(Err(STARVED), host);
    if explain {
        host.put_error(MEMORY);
    }
    status
}

/// Reports a file that cannot be read, explains why if that is asked for, and returns the status. The line fits into `room`.
pub(crate) fn miss<A: Memory, H: Host>(
    explain: bool,
    unread: Unread<'_>,
    room: Vec<u8, A>,
    host: &mut H,
) -> u8
    requires empty { room.items ≡ [] }
    requires fits { length (unreadable_line unread.name.now) ≤ vec_capacity room }
    ensures plain { explain ≡ false →
        Tells (Some (unreadable_line unread.entry.name.now)) (H.seen host.old) (H.seen host.new) }
    ensures explaining { explain ≡ true →
        MissesAndExplains unread.entry.name.now unread.entry.why (H.seen host.old) (H.seen host.new) }
    ensures status { result ≡ 3 }
{
    tell_unreadable(unread.name, room, host);
    if explain {
        host.put_error(explained_failure(unread.name, unread.why));
    }
    FAILED
}

/// Reports and explains that the script is too long, and returns the status.
fn refuse_script<A: Memory, H: Host>(alloc: A, script: &[u8], host: &mut H) -> u8
    requires flushes { (H.seen host.old).failed_flushes < 2 ^ 64 - 1 }
    requires long { most_script_bytes < length script.now }
    ensures { (files : List Text) (inputs : List (Input A)) →
        ClosesAndExplains A files script.now inputs (H.seen host.old) (H.seen host.new) result }
{
    let stop = Stop::Script {
        line: 0,
        fault: Fault::new(FaultNo::ScriptTooLong),
    };
    let status = finish(Err(stop), host);
    put_explanation(explain_too_long(alloc, script), host);
    status
}

/// Runs the script on a session over its inputs, reports and explains why it stopped, and returns the status.
fn run_session<R: Threads + Sync, A: Memory, H: Host, G: Gate>(
    rt: &R,
    alloc: A,
    session: Session<A>,
    files: &[&str],
    script: &[u8],
    host: &mut H,
    gate: &G,
) -> u8
    requires failures { (H.seen host.old).failed_puts < 2 ^ 64 - 1 }
    requires flushes { (H.seen host.old).failed_flushes < 2 ^ 64 - 1 }
    requires unbound { session.names ≡ [] }
    requires short { length script.now ≤ most_script_bytes }
    ensures { ClosesAndExplains A (texts files.now) script.now session.inputs (H.seen host.old) (H.seen host.new) result }
{
    let mut session = session;
    let answer = run_lines(rt, alloc, &mut session, script, host, gate);
    match close(answer, host) {
        None => FINE,
        Some(stop) => {
            tell_explained(rt, alloc, &session, files, script, &stop, host);
            status_of(&stop)
        }
    }
}

/// Runs the script over its inputs, reports and explains why the run stopped, and returns the status. The run is that of
/// [`run_gated`](script_runs::run_gated), on a session that is still there when it has stopped.
pub(crate) fn run_explained<R: Threads + Sync, A: Memory, H: Host, G: Gate>(
    rt: &R,
    alloc: A,
    words: &Words<'_>,
    script: &[u8],
    inputs: Vec<Input<A>, A>,
    host: &mut H,
    gate: &G,
) -> u8
    requires failures { (H.seen host.old).failed_puts < 2 ^ 64 - 1 }
    requires flushes { (H.seen host.old).failed_flushes < 2 ^ 64 - 1 }
    ensures { ClosesAndExplains A (texts words.now.inputs.items) script.now inputs.items
        (H.seen host.old) (H.seen host.new) result }
{
    if script.len() > MOST_SCRIPT_BYTES {
        return refuse_script(alloc, script, host);
    }
    match Session::new(alloc, words.config, inputs) {
        Err(_) => starve(true, host),
        Ok(session) => run_session(
            rt,
            alloc,
            session,
            words.inputs.as_slice(),
            script,
            host,
            gate,
        ),
    }
}
