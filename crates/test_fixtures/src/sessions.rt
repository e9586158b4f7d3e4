//! A session by its calls; one that was refused memory is made again.

use crate::hosts::inputs_of;
use call_reader::read_line;
use cvl_base::{Config, Ints, Memory, Name, NoResources, Refused, Value};
use shell::{Stop, put_stop};
use std::alloc::Global;
use std::thread::Threads;
use vector_handles::{Input, Session, Shown};

/// The texts of the first inputs of a session.
const INPUTS: &[&str] = &["[[1 2] [] [3]]", "0 2 0 3 0", "5 1 7 7 1"];

/// A session on these inputs and a fourth one, which is a vector and no text.
fn session_on<A: Memory>(heap: A) -> Result<Session<A>, NoResources> {
    let mut inputs = inputs_of(heap, INPUTS)?;
    inputs.push(Input::Vector(Ints::from_vec(vec![in heap; 1, 0]?)))?;
    Session::new(heap, Config::new(2, 3).unwrap(), inputs)
}

/// Makes the call of a line.
pub fn call_line<R: Threads + Sync, A: Memory>(
    rt: &R,
    heap: A,
    session: &mut Session<A>,
    line: &str,
) -> Result<Shown<A>, Refused> {
    match read_line(heap, line.as_bytes())? {
        Some(call) => session.apply(rt, &call),
        None => Ok(Shown::Nothing),
    }
}

/// Appends what the call of a line shows, or its fault as that of line 0. The call is made once more if memory is refused.
fn put_line<R: Threads + Sync, A: Memory>(
    rt: &R,
    heap: A,
    session: &mut Session<A>,
    line: &str,
    text: &mut Vec<u8>,
) -> Result<(), Refused> {
    let shown = match call_line(rt, heap, session, line) {
        Err(Refused::NoResources) => call_line(rt, heap, session, line),
        shown => shown,
    };
    match shown {
        Ok(Shown::Nothing) => {}
        Ok(Shown::Text(shown)) => text.extend_from_slice(shown.as_slice())?,
        Err(Refused::Fault(fault)) => put_stop(&Stop::Script { line: 0, fault }, text)?,
        Err(Refused::NoResources) => return Err(Refused::NoResources),
    }
    Ok(())
}

/// Whether the calls of these lines show this text on memory that may refuse one request, and leave the name `b` bound to the
/// fourth input.
pub fn show<R: Threads + Sync, A: Memory>(
    rt: &R,
    heap: A,
    alloc: Global,
    lines: &str,
    right: &str,
) -> Result<bool, Refused> {
    let mut session = match session_on(heap) {
        Ok(session) => session,
        Err(NoResources) => session_on(heap)?,
    };
    let mut text = Vec::new(alloc);
    for line in lines.lines() {
        put_line(rt, heap, &mut session, line, &mut text)?;
    }
    Ok(text.as_slice() == right.as_bytes() && gives_input(session)?)
}

/// Whether `b` is bound to the fourth input, which is taken out of the session.
fn gives_input<A: Memory>(session: Session<A>) -> Result<bool, Refused> {
    let Some(name) = Name::new(b"b") else {
        return Ok(false);
    };
    match session.into_value(&name)? {
        Some(Value::Integers(taken)) => Ok(taken.as_slice() == [1, 0].as_slice()),
        _ => Ok(false),
    }
}
