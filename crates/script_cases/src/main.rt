//! Runs scripts on their inputs and compares what they write, and why they stop, with what is expected.
//!
//! The words of the command line name files of cases. It prints a line for each file with the number of cases that are right, and
//! for a run that differs its case and its outcome beside the expected one. The status is 0 if all is as expected, 1 if a case
//! differs, and 3 if a file cannot be read, has a heading of no meaning, or memory or standard output fails.
//!
//! Every run is on the memory that tests refuse, so that the calls are compiled for one type of memory.
#![tactic(auto)]

mod differences;
mod explained_stops;
mod kept_room;
mod outcomes;

use crate::differences::{tell_difference, tell_flaw};
use crate::kept_room::keep_room;
use crate::outcomes::{comes_out, outcome_of};
use case_files::{Case, SingleRun, Trouble, cases_of, runs_of};
use cvl_base::NoResources;
use refusing_memory::{Refusing, withstands_refusals};
use std::io::Write;
use std::process::ExitCode;
use std::rt::{Env, Files};
use std::thread::Threads;
use std::{env, fs, io};

/// The status if all is as expected.
const FINE: u8 = 0;

/// The status if a case differs.
const DIFFERS: u8 = 1;

/// The status if no file of cases is named.
const COMMAND_LINE: u8 = 2;

/// The status if a file cannot be read or understood, or memory or standard output fails.
const FAILED: u8 = 3;

/// Refuses each request of a run in turn, reports what is wrong, and returns whether all came out, of at least so many requests.
fn refuse_in_turn<'a, R: AllocGlobal + Threads + Sync, W: Write>(
    rt: &R,
    output: &mut W,
    single: &SingleRun<'_>,
    least: u64,
) -> Result<bool, Trouble<'a>> {
    let ample = rt.alloc();
    let found = withstands_refusals(
        ample,
        |heap| comes_out(rt, ample, heap, single),
        Ok(true),
        Err(NoResources),
    );
    if let Ok(requests) = found
        && requests >= least
    {
        return Ok(true);
    }
    tell_flaw(output, single, &found)?;
    Ok(false)
}

/// Makes a run, reports what differs, and returns whether all came out as expected.
fn run_once<'a, R: AllocGlobal + Threads + Sync, W: Write>(
    rt: &R,
    output: &mut W,
    single: &SingleRun<'_>,
) -> Result<bool, Trouble<'a>> {
    let heap = Refusing::none(rt.alloc());
    let outcome = outcome_of(rt, rt.alloc(), &heap, single)?;
    if !outcome.is_expected(single) {
        tell_difference(output, single, &outcome)?;
        return Ok(false);
    }
    match single.case.requests {
        Some(least) => refuse_in_turn(rt, output, single, least),
        None => Ok(true),
    }
}

/// Makes the runs of a case up to one that differs, and returns whether all came out as expected.
fn run_case<'a, R: AllocGlobal + Threads + Sync, W: Write>(
    rt: &R,
    output: &mut W,
    case: &Case<'_>,
) -> Result<bool, Trouble<'a>> {
    for single in runs_of(rt.alloc(), case)? {
        if !run_once(rt, output, &single)? {
            return Ok(false);
        }
    }
    Ok(true)
}

/// Runs the cases of a file of this name, and returns whether all came out as expected.
fn run_file<'a, R: Files + AllocGlobal + Threads + Sync, W: Write>(
    rt: &R,
    output: &mut W,
    name: &str,
    file: &'a [u8],
) -> Result<bool, Trouble<'a>> {
    let cases = cases_of(rt, folder_of(name), file)?;
    let mut came_out: usize = 0;
    for case in &cases {
        came_out = came_out.saturating_add(usize::from(run_case(rt, output, case)?));
    }
    writeln!(output, "ok {came_out} cases of {name}")?;
    Ok(came_out == cases.len())
}

/// Reports why the cases of a file cannot be run.
fn tell_trouble<E: Write>(errors: &mut E, name: &str, trouble: Trouble<'_>) -> u8 {
    let _ = writeln!(errors, "{name}: {trouble}");
    FAILED
}

/// The folder of the file with this name, with a slash at its end if it has a name.
fn folder_of(name: &str) -> &str {
    name.trim_end_matches(|letter: char| letter != '/')
}

/// Runs the cases of a file with this name, and returns the status.
fn run_named<R: Files + AllocGlobal + Threads + Sync, W: Write, E: Write>(
    rt: &R,
    output: &mut W,
    errors: &mut E,
    name: &str,
) -> u8 {
    let Ok(file) = fs::read(rt, name) else {
        return tell_trouble(errors, name, Trouble::Unreadable(name));
    };
    match run_file(rt, output, name, &file) {
        Ok(true) => FINE,
        Ok(false) => DIFFERS,
        Err(trouble) => tell_trouble(errors, name, trouble),
    }
}

/// Runs the files that the command line names, and returns the greatest status.
fn run_words<R: Env + Files + AllocGlobal + Threads + Sync, W: Write, E: Write>(
    rt: &R,
    output: &mut W,
    errors: &mut E,
) -> io::Result<u8> {
    let mut status = None;
    for name in env::args(rt)?.skip(1) {
        let named = run_named(rt, output, errors, &name);
        status = Some(named.max(status.unwrap_or(FINE)));
    }
    if status.is_none() {
        writeln!(errors, "usage: script_cases FILE ..")?;
    }
    Ok(status.unwrap_or(COMMAND_LINE))
}

fn main(rt: HostRuntime) -> ExitCode {
    let (mut output, mut errors) = (rt.stdout(), rt.stderr());
    let _room = keep_room(rt.alloc());
    ExitCode::from(run_words(&rt, &mut output, &mut errors).unwrap_or(FAILED))
}
