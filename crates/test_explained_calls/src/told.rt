//! The words for lines and for calls, with all memory and with each request refused in turn.

use crate::cases::{CALLS, LINES};
use cvl_base::{FaultNo, Memory, NoResources};
use explained_calls::{CallWords, Line, Words, nearest, put_line_fault};
use refusing_memory::withstands_refusals;
use std::test::Fail;

/// The text that explains a line with a fault.
fn told_of_line<A: Memory>(
    alloc: A,
    line: &str,
    fault: FaultNo,
) -> Result<Vec<u8, A>, NoResources> {
    let mut text = Vec::new(alloc);
    put_line_fault(alloc, line.as_bytes(), fault, &mut text)?;
    Ok(text)
}

#[test]
fn lines(rt: HostRuntime) -> Result<(), Fail> {
    for (line, fault, told) in &LINES {
        let text = told_of_line(rt.alloc(), line, *fault)?;
        assert_eq!(rt; text.as_slice(), told.as_bytes(), "of {line}");
    }
    Ok(())
}

#[test]
fn calls(rt: HostRuntime) -> Result<(), Fail> {
    for (op, told) in &CALLS {
        let mut text = Vec::from_slice(rt.alloc(), b"before".as_slice())?;
        Line(CallWords(*op)).put(&mut text)?;
        let (before, behind) = text.as_slice().split_at(6);
        assert_eq!(rt; before, b"before".as_slice());
        assert_eq!(rt; behind, told.as_bytes());
    }
    Ok(())
}

#[test]
fn nearest_of_none_and_of_some(rt: HostRuntime) -> Result<(), Fail> {
    let known: [&[u8]; 4] = [b"w", b"v21", b"v2", b"v3"];
    assert!(rt; nearest(rt.alloc(), b"v1", &[])?.is_none());
    match nearest(rt.alloc(), b"v1", &known)? {
        Some(name) => assert_eq!(rt; name, b"v21".as_slice()),
        None => assert!(rt; false),
    }
    Ok(())
}

#[test]
fn refused_in_turn(rt: HostRuntime) -> Result<(), Fail> {
    let (line, fault, told) = LINES[13];
    let requests = withstands_refusals(
        rt.alloc(),
        |heap| match told_of_line(heap, line, fault) {
            Ok(text) => Ok(text.as_slice() == told.as_bytes()),
            Err(refused) => Err(refused),
        },
        Ok(true),
        Err(NoResources),
    )?;
    assert!(rt; requests > 116, "{requests}");
    Ok(())
}
