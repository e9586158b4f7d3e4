//! Runs of the program on a host in memory, and whether they end as a row says.

use crate::hosts::{Failing, Files, Host, host_with};
use cvl_base::{Memory, NoResources};
use shell::{Gate, program_gated};
use std::thread::Threads;

/// A command line and its outcome: standard output, standard error and the status.
pub type Row<'a> = (&'a str, &'a str, &'a str, u8);

/// What standard error begins with if a command line is refused.
pub const REFUSED: &str = "error: ";

/// Whether a run has this outcome: standard output, all of it flushed if the status is 0, standard error and the status.
fn came(host: &Host<'_>, status: u8, row: &Row<'_>) -> bool {
    let (_, output, errors, wanted) = row;
    let (taken, told) = (host.output.taken.as_slice(), host.errors.taken.as_slice());
    let is_told = told == errors.as_bytes()
        || *errors == REFUSED && told.starts_with(REFUSED.as_bytes());
    let is_sent = status != 0 || host.output.sent == taken.len();
    status == *wanted && taken == output.as_bytes() && is_told && is_sent
}

/// What stands behind the line of a stop for which memory ran out, if the command line asks for explanations.
const MEMORY: &str = ": no resources
  memory ran out: try shorter vectors, bind fewer names, or allow the process more memory
";

/// What stands behind the line of a file for which there is no memory, if the command line asks for explanations.
const NO_ROOM: &str = "
  memory ran out: give cvl a shorter file, or allow the process more memory
";

/// What stands behind the line of another stop if there is no memory for its explanation.
const UNEXPLAINED: &[u8] = b"cvl: no memory to explain this\n";

/// Whether a run ended so for want of memory: it says so, and has written a beginning of the text.
fn is_starved(host: &Host<'_>, status: u8, row: &Row<'_>) -> bool {
    let told = host.errors.taken.as_slice();
    let (end, unread) = if asks_why(row) {
        (MEMORY, NO_ROOM)
    } else {
        (": no resources\n", "\n")
    };
    let is_told = told.ends_with(end.as_bytes())
        || told.starts_with(b"cannot read ") && told.ends_with(unread.as_bytes());
    status == 3 && is_told && row.1.as_bytes().starts_with(&host.output.taken)
}

/// Whether the command line asks for explanations.
fn asks_why(row: &Row<'_>) -> bool {
    row.0.contains(" --explain ")
}

/// Whether a run ended as it should, but there was no memory to explain why: it says so behind the line of the stop.
fn is_unexplained(host: &Host<'_>, status: u8, row: &Row<'_>) -> bool {
    let (_, output, errors, wanted) = row;
    let stop = errors.split_inclusive('\n').next().unwrap_or("");
    let rest = host.errors.taken.strip_prefix(stop.as_bytes());
    asks_why(row)
        && status == *wanted
        && host.output.taken.as_slice() == output.as_bytes()
        && rest == Some(UNEXPLAINED)
}

/// Whether the program ends as the row says, on this memory and on a host on which this fails, which has its own memory for what
/// it writes. Its workers pass a gate.
pub fn ends_as<R: Threads + Sync + AllocGlobal, A: Memory, G: Gate>(
    rt: &R,
    heap: A,
    files: Files<'_>,
    failing: Failing,
    row: &Row<'_>,
    gate: &G,
) -> Result<bool, NoResources> {
    let mut host = host_with(rt.alloc(), files, failing);
    let words: Vec<&str> = row.0.split_whitespace().collect(rt.alloc())?;
    let status = program_gated(rt, heap, words.as_slice(), &mut host, gate);
    if came(&host, status, row) {
        Ok(true)
    } else if is_starved(&host, status, row) || is_unexplained(&host, status, row) {
        Err(NoResources)
    } else {
        Ok(false)
    }
}
