//! How the program ends: its message on standard error, and its status.

ghost use Rattle.std.specs.Prelude.{◌≡◌, ◌+◌, ◌-◌, ◌^◌, ◌<◌, ◌≤◌, ◌++◌, [], length, Some, is_ok, vec_len, vec_capacity};
ghost use Rattle.script_runs.specs.Hosts.{Tells};
ghost use Rattle.script_runs.specs.StopTexts.{stop_line};
ghost use Rattle.shell.specs.ProgramParts.{EndsBy, Finishes};
ghost use Rattle.shell.specs.Programs.{end_of, stop_status, unreadable_line};

use crate::host::Host;
use cvl_base::Memory;
use script_runs::{SinkFault, Stop, stop_line};

/// The status of work without a fault and of help.
pub const FINE: u8 = 0;

/// The status of a script with a fault.
pub const SCRIPT_FAULT: u8 = 1;

/// The status of a command line that is refused.
pub const COMMAND_LINE: u8 = 2;

/// The status if a file cannot be read, memory is refused or a write fails.
pub const FAILED: u8 = 3;

/// The status of a stop.
pub(crate) fn status_of(stop: &Stop) -> u8
    ensures { result ≡ stop_status stop.now }
{
    match stop {
        Stop::Script { .. } => SCRIPT_FAULT,
        Stop::NoResources { .. } => FAILED,
        Stop::WriteFailed { .. } => FAILED,
    }
}

/// Why the program ends: the stop of its work, or else a failed flush of its output.
fn end_of(answer: Result<(), Stop>, flushed: Result<(), SinkFault>) -> Option<Stop>
    ensures { result ≡ end_of answer (is_ok flushed) }
{
    match answer {
        Err(stop) => Some(stop),
        Ok(()) => match flushed {
            Ok(()) => None,
            Err(_) => Some(Stop::WriteFailed { line: 0 }),
        },
    }
}

/// Writes the stop to standard error; takes no memory.
pub(crate) fn tell_stop<H: Host>(stop: &Stop, host: &mut H)
    ensures { Tells (Some (stop_line stop.now)) (H.seen host.old) (H.seen host.new) }
{
    let line = stop_line(stop);
    host.put_error(line.as_bytes());
}

/// How many bytes the line about an unreadable file has besides its name.
pub(crate) const UNREADABLE_BYTES: usize = 13;

/// Appends a piece that fits into the room.
fn put_piece<A: Memory>(piece: &[u8], line: &mut Vec<u8, A>)
    requires { vec_len line.old + length piece.now ≤ vec_capacity line.old }
    ensures bytes { line.new.items ≡ line.old.items ++ piece.now }
    ensures room { vec_capacity line.old ≤ vec_capacity line.new }
{
    let _ = line.extend_from_slice(piece);
}

/// Reports on standard error a file that cannot be read. The line fits into `room`.
pub(crate) fn tell_unreadable<A: Memory, H: Host>(name: &str, room: Vec<u8, A>, host: &mut H)
    requires empty { room.items ≡ [] }
    requires fits { length (unreadable_line name.now) ≤ vec_capacity room }
    ensures { Tells (Some (unreadable_line name.now)) (H.seen host.old) (H.seen host.new) }
{
    let mut line = room;
    put_piece(b"cannot read ", &mut line);
    put_piece(name.as_bytes(), &mut line);
    put_piece(b"\n", &mut line);
    host.put_error(line.as_slice());
}

/// Flushes standard output, writes to standard error why the work ended, and returns that.
pub(crate) fn close<H: Host>(answer: Result<(), Stop>, host: &mut H) -> Option<Stop>
    requires { (H.seen host.old).failed_flushes < 2 ^ 64 - 1 }
    ensures { EndsBy answer (H.seen host.old) (H.seen host.new) result }
{
    let flushed = host.flush();
    match end_of(answer, flushed) {
        None => None,
        Some(stop) => {
            tell_stop(&stop, host);
            Some(stop)
        }
    }
}

/// Flushes standard output, writes to standard error why the work ended, and returns the status.
pub(crate) fn finish<H: Host>(answer: Result<(), Stop>, host: &mut H) -> u8
    requires { (H.seen host.old).failed_flushes < 2 ^ 64 - 1 }
    ensures { Finishes answer (H.seen host.old) (H.seen host.new) result }
{
    match close(answer, host) {
        None => FINE,
        Some(stop) => status_of(&stop),
    }
}
