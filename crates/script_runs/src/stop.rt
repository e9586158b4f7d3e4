//! Why a run stopped.

ghost use Rattle.std.specs.Prelude.{◌≡◌, ◌+◌, ◌≤◌, ◌++◌, length, IsOk, OnOk, OnErr, vec_capacity};
ghost use Rattle.script_runs.specs.StopTexts.{stop_line, stop_text};

use crate::stop_lines::stop_line;
use cvl_base::{Fault, Memory, NoResources};
use std::fmt;
use thiserror::Error;

/// Why a run stopped before the end of its script. Lines count from 1, and line 0 is before the first.
#[derive(Clone, Copy, Debug, PartialEq, Eq, Error)]
pub enum Stop {
    /// A line has a fault.
    Script {
        /// The line at fault; 0 if the script is too long.
        line: u32,
        /// The fault, with its place.
        fault: Fault,
    },
    /// Memory ran out.
    NoResources {
        /// The line that ran.
        line: u32,
    },
    /// The sink failed.
    WriteFailed {
        /// The line whose text was written.
        line: u32,
    },
}

/// The line, and why the run stopped there.
impl fmt::Display for Stop {
    ghost use Rattle.std.specs.Prelude.{Some};

    ghost output = { λ stop. Some (stop_text stop) };

    fn fmt<W: fmt::Write>(&self, f: &mut fmt::Formatter<W>) -> fmt::Result {
        match self {
            Stop::Script { line, fault } => write!(f, "line {line}: {fault}"),
            Stop::NoResources { line } => write!(f, "line {line}: no resources"),
            Stop::WriteFailed { line } => write!(f, "line {line}: write failed"),
        }
    }
}

/// Appends the line of text about a stop: the stop as it is shown, and a line feed. After a refusal the text is as before; there
/// is none if the text has room for the line.
pub fn put_stop<A: Memory>(stop: &Stop, text: &mut Vec<u8, A>) -> Result<(), NoResources>
    ensures ok { OnOk result (text.new.items ≡ text.old.items ++ stop_line stop.now) }
    ensures err { OnErr result (text.new.items ≡ text.old.items) }
    ensures in_room { length text.old.items + length (stop_line stop.now) ≤ vec_capacity text.old → IsOk result }
{
    text.extend_from_slice(stop_line(stop).as_bytes())?;
    Ok(())
}
