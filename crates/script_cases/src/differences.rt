//! Reports of a run that differs.

use crate::outcomes::Outcome;
use case_files::SingleRun;
use refusing_memory::Flaw;
use std::io;
use std::io::Write;

/// Inputs of so many bytes, and longer ones, are not shown.
const MOST_TOLD: usize = 1_000;

/// Writes bytes below a line that says what they are.
fn tell_bytes<W: Write>(output: &mut W, what: &str, bytes: &[u8]) -> io::Result<()> {
    writeln!(output, "-- {what}")?;
    output.write_all(bytes)
}

/// Writes which run differs, and its inputs if they are short.
fn tell_run<W: Write>(output: &mut W, single: &SingleRun<'_>) -> io::Result<()> {
    let (tile, workers) = (single.config.tile(), single.config.workers());
    let name = single.case.name;
    writeln!(
        output,
        "differs: {name}, on tiles of {tile} and {workers} workers"
    )?;
    for input in &single.inputs {
        if input.len() < MOST_TOLD {
            tell_bytes(output, "input", input)?;
            writeln!(output)?;
        }
    }
    Ok(())
}

/// Writes what came out beside what was expected.
pub fn tell_difference<W: Write>(
    output: &mut W,
    single: &SingleRun<'_>,
    outcome: &Outcome,
) -> io::Result<()> {
    tell_run(output, single)?;
    tell_bytes(output, "came out", &outcome.shown)?;
    output.write_all(&outcome.explained)?;
    tell_bytes(output, "expected", &single.shown)?;
    output.write_all(&single.case.explained)
}

/// Writes what is wrong with a run whose requests for memory were refused in turn, or how many requests it made.
pub fn tell_flaw<W: Write>(
    output: &mut W,
    single: &SingleRun<'_>,
    found: &Result<u64, Flaw>,
) -> io::Result<()> {
    tell_run(output, single)?;
    match found {
        Ok(requests) => writeln!(output, "-- requests for memory: {requests}"),
        Err(flaw) => writeln!(output, "-- refused memory: {flaw:?}"),
    }
}
