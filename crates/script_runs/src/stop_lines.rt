//! The line of text about a stop, which takes no memory.

ghost use Rattle.std.specs.Prelude.{◌≡◌, ◌+◌, ◌≤◌, ◌++◌, length};
ghost use Rattle.std.specs.Fmt.{decimal};
ghost use Rattle.cvl_base.specs.Faults.{fault_text};
ghost use Rattle.script_runs.specs.StopTexts.{line_of, reason_text, stop_line};

use crate::stop::Stop;
use arrayvec::ArrayString;
use cvl_base::Fault;
use itoa::Buffer;

/// More bytes than the line of any stop has.
pub const STOP_LINE_BYTES: usize = 80;

/// Appends a number, which has at most ten digits.
fn put_number(number: u32, line: &mut ArrayString<STOP_LINE_BYTES>)
    requires { length line.old.bytes + 10 ≤ STOP_LINE_BYTES }
    ensures bytes { line.new.bytes ≡ line.old.bytes ++ decimal number }
    ensures short { length line.new.bytes ≤ length line.old.bytes + 10 }
{
    line.push_str(Buffer::new().format(number));
}

/// Appends the text of a fault. The longest name has 18 bytes.
#[tactic(auto, using(crate::proofs::FaultNames::name_short))]
fn put_fault(fault: &Fault, line: &mut ArrayString<STOP_LINE_BYTES>)
    requires { length line.old.bytes + 49 ≤ STOP_LINE_BYTES }
    ensures bytes { line.new.bytes ≡ line.old.bytes ++ fault_text fault.now }
    ensures short { length line.new.bytes ≤ length line.old.bytes + 49 }
{
    line.push_str("fault ");
    put_number(fault.number.number(), line);
    line.push_str(" ");
    line.push_str(fault.number.name());
    if let Some(place) = fault.place {
        line.push_str(" at ");
        put_number(place, line);
    }
}

/// Appends why a run stopped.
fn put_reason(stop: &Stop, line: &mut ArrayString<STOP_LINE_BYTES>)
    requires { length line.old.bytes + 49 ≤ STOP_LINE_BYTES }
    ensures bytes { line.new.bytes ≡ line.old.bytes ++ reason_text stop.now }
    ensures short { length line.new.bytes ≤ length line.old.bytes + 49 }
{
    match stop {
        Stop::Script { fault, .. } => put_fault(fault, line),
        Stop::NoResources { .. } => line.push_str("no resources"),
        Stop::WriteFailed { .. } => line.push_str("write failed"),
    }
}

/// The line at which a run stopped.
fn line_of(stop: &Stop) -> u32
    ensures { result ≡ line_of stop.now }
{
    match stop {
        Stop::Script { line, .. } => *line,
        Stop::NoResources { line } => *line,
        Stop::WriteFailed { line } => *line,
    }
}

/// The line of text about a stop: the stop as it is shown, and a line feed.
pub fn stop_line(stop: &Stop) -> ArrayString<STOP_LINE_BYTES>
    ensures { result.bytes ≡ stop_line stop.now }
{
    let mut text = ArrayString::new();
    text.push_str("line ");
    put_number(line_of(stop), &mut text);
    text.push_str(": ");
    put_reason(stop, &mut text);
    text.push_str("\n");
    text
}
