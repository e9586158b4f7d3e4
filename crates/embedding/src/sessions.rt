//! A session, on which the calls of a script are made one by one.

use call_reader::read_line;
use cvl_base::{Config, Ints, Memory, Refused};
use std::thread::Threads;
use vector_handles::{Input, Session, Shown};

/// The lines of a script.
const LINES: [&str; 3] = ["a = input 1", "b = add_suz a", "write b"];

/// The text that a script shows of five numbers.
pub fn text_of_scan<R: Threads + Sync, A: Memory>(
    rt: &R,
    alloc: A,
    config: Config,
    numbers: [i32; 5],
) -> Result<Vec<u8, A>, Refused> {
    let input = Ints::from_vec(Vec::from_slice(alloc, &numbers)?);
    let mut inputs = Vec::new(alloc);
    inputs.push(Input::Vector(input))?;
    let mut session = Session::new(alloc, config, inputs)?;
    let mut shown = Vec::new(alloc);
    for line in LINES {
        let Some(call) = read_line(alloc, line.as_bytes())? else {
            continue;
        };
        if let Shown::Text(text) = session.apply(rt, &call)? {
            shown.extend_from_slice(&text)?;
        }
    }
    Ok(shown)
}
