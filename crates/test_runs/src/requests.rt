//! What is made on ample memory, and with each of its requests refused in turn: runs of the program, calls, recipes and texts.

use crate::programs::{FILES, GIVEN, LATE, NO_FILE, NO_NEST, OUT_OF_RANGE, SCANNED};
use cvl_base::{Memory, Refused};
use refusing_memory::{Flaw, withstands_refusals};
use shell::{MemSink, OpenGate, Sink};
use std::test::Fail;
use std::thread::Threads;
use test_fixtures::hosts::Failing::Nothing;
use test_fixtures::hosts::{Files, text_of};
use test_fixtures::kept_texts::{LONG_TEXT, appends};
use test_fixtures::other_calls::{Call, answer_of};
use test_fixtures::programs::{Row, ends_as};

/// What is made.
#[derive(Drop)]
enum Made<'a> {
    /// A run of the program, on these files.
    Run(Files<'a>, Row<'a>),
    /// What a call gives.
    Call(Call, &'a [i32]),
    /// A text after one of so many bytes.
    Text(usize),
    /// A sink whose room is made before.
    Sink,
}

/// The scan of the numbers, in short tiles, a script that stops at its last line, and a run whose input cannot be read.
const SCAN: Row = ("cvl --tile 2 --workers 3 scan numbers", SCANNED, "", 0);

const STOPPED: Row = ("cvl --tile 2 --workers 3 late numbers", GIVEN, LATE, 1);

const UNREAD: Row = ("cvl late numbers nofile", "", NO_FILE, 3);

/// Runs whose stop is explained: at an index out of range, and at an input that is a list of numbers and is read to see that.
const EXPLAINED: Row = ("cvl --explain gather numbers index", "", OUT_OF_RANGE, 1);

const UNNESTED: Row = ("cvl --explain nest numbers", "", NO_NEST, 1);

/// What is made, and how many requests it makes at least.
const ALL: &[(Made, u64)] = &[
    (Made::Run(FILES, SCAN), 5),
    (Made::Run(FILES, STOPPED), 5),
    (Made::Run(FILES, UNREAD), 3),
    (Made::Run(FILES, EXPLAINED), 10),
    (Made::Run(FILES, UNNESTED), 6),
    (Made::Call(Call::Scan, &[0, 3, 4, 11, 11]), 4),
    (Made::Call(Call::Reduce, &[15]), 4),
    (Made::Call(Call::SegScan, &[0, 3, 0, 7, 7]), 4),
    (Made::Call(Call::SegReduce, &[4, 0, 11]), 4),
    (Made::Call(Call::SimpleOver, &[20, 30, 10]), 4),
    (Made::Call(Call::SegPack, &[3, 7, 0, 1, 0, 2]), 4),
    (Made::Call(Call::Product, &[5, 0, 18]), 4),
    (Made::Call(Call::Sight, &[1, 1, 0, 1, 0]), 4),
    // the vector and the room for its text, at least
    (Made::Text(0), 2),
    (Made::Text(1), 2),
    (Made::Text(1_000), 2),
    (Made::Text(LONG_TEXT - 1), 2),
    (Made::Text(LONG_TEXT), 2),
    (Made::Text(LONG_TEXT + 1), 2),
    (Made::Sink, 1),
];

/// Whether it is right.
fn is_right<R: Threads + Sync + AllocGlobal, A: Memory>(
    rt: &R,
    heap: A,
    made: &Made<'_>,
) -> Result<bool, Refused> {
    match made {
        Made::Run(files, row) => Ok(ends_as(rt, heap, files, Nothing, row, &OpenGate)?),
        Made::Call(call, right) => Ok(answer_of(rt, heap, call)?.as_slice() == *right),
        Made::Text(length) => Ok(appends(rt, heap, rt.alloc(), *length)?),
        Made::Sink => Ok(MemSink::with_room(heap, 64)?.put(&[b'a'; 64]) == Ok(64)),
    }
}

/// How many requests it makes, each of which is refused in turn.
fn requests_of<R: Threads + Sync + AllocGlobal>(rt: &R, made: &Made<'_>) -> Result<u64, Flaw> {
    withstands_refusals(
        rt.alloc(),
        |heap| is_right(rt, heap, made),
        Ok(true),
        Err(Refused::NoResources),
    )
}

#[test]
fn each_request_refused(rt: HostRuntime) -> Result<(), Fail> {
    for (made, least) in ALL {
        let requests = requests_of(&rt, made)?;
        assert!(rt; requests >= *least, "{requests} and not {least}");
    }
    Ok(())
}

/// The last input that a script may read; and a file so long that threads write the memory for it before it is read: the room for
/// the file, besides those for the inputs, for a line and for the script.
#[test]
fn each_request_of_long_runs_refused(rt: HostRuntime) -> Result<(), Fail> {
    let words = text_of(rt.alloc(), "cvl last", " empty", 197, " numbers")?;
    let numbers = text_of(rt.alloc(), "3 1 7 0 4", " ", 1_100_000, "")?;
    let files = [FILES[1], ("numbers", numbers.as_str())];
    for made in [
        Made::Run(FILES, (words.as_str(), SCANNED, "", 0)),
        Made::Run(&files, SCAN),
    ] {
        let requests = requests_of(&rt, &made)?;
        assert!(rt; requests >= 6, "{requests} and not 6");
    }
    Ok(())
}
