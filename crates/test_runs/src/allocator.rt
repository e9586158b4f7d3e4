//! The allocator for tests: how many requests and frees it counts, which requests it refuses, and what it finds wrong.

use cvl_base::Memory;
use refusing_memory::{Flaw, Refusal, Refusing, withstands_refusals};
use std::alloc::{AllocError, Global};
use std::{mem, thread};

/// Makes so many requests, each freed at once.
fn boxes<A: Memory>(alloc: A, requests: u64) -> Result<(), AllocError> {
    for n in 0..requests {
        drop(Box::new(alloc, n)?);
    }
    Ok(())
}

/// How many of so many requests in a row are refused.
fn refused_of<A: Memory>(alloc: A, requests: u64) -> usize {
    let mut refused = 0usize;
    for _ in 0..requests {
        refused = refused.saturating_add(usize::from(boxes(alloc, 1).is_err()));
    }
    refused
}

/// What an allocator has counted: requests, refusals, frees, and blocks that are held.
fn counts_of(heap: &Refusing<Global>) -> [u64; 4] {
    [heap.requests(), heap.refused(), heap.frees(), heap.held()]
}

/// A rule, how many of six requests it refuses, and what is counted then.
const RULES: [(Refusal, usize, [u64; 4]); 3] = [
    (Refusal::Never, 0, [6, 0, 6, 0]),
    (Refusal::Only(1), 1, [6, 1, 5, 0]),
    (Refusal::From(1), 5, [6, 5, 1, 0]),
];

#[test]
fn counts_and_refusals(rt: HostRuntime) {
    for (rule, refused, counts) in RULES {
        let heap = Refusing::new(rule, rt.alloc());
        assert!(rt; refused_of(&heap, 6) == refused && counts_of(&heap) == counts);
    }
    let heap = Refusing::none(rt.alloc());
    let kept = Box::new(&heap, 7u64);
    assert!(rt; counts_of(&heap) == [1, 0, 0, 1]);
    drop(kept);
    assert!(rt; counts_of(&heap) == [1, 0, 1, 0]);
}

#[test]
fn counts_across_threads(rt: HostRuntime) {
    let heap = Refusing::new(Refusal::Only(500), rt.alloc());
    let shared = &heap;
    let (left, right) = thread::join(
        &rt,
        || refused_of(shared, 1_000),
        || refused_of(shared, 1_000),
    );
    assert!(rt; left.wrapping_add(right) == 1 && counts_of(shared) == [2000, 1, 1999, 0]);
}

/// What is run on the allocator.
enum Work {
    /// So many requests.
    Boxes(u64),
    /// Three requests whose refusal is ignored.
    Silent,
    /// A request whose block is kept for good.
    Leaking,
}

/// Whether the work was refused memory.
fn answer_of<A: Memory>(alloc: A, work: &Work) -> Result<(), AllocError> {
    match work {
        Work::Boxes(requests) => boxes(alloc, *requests),
        Work::Silent => Ok(boxes(alloc, 3).unwrap_or(())),
        Work::Leaking => {
            mem::forget(Box::new(alloc, 1u64)?);
            Ok(())
        }
    }
}

/// The work, and how many requests it makes, or what is wrong with it.
const WORKS: &[(Work, Result<u64, Flaw>)] = &[
    (Work::Boxes(3), Ok(3)),
    (Work::Silent, Err(Flaw::WrongAnswer(0))),
    (Work::Leaking, Err(Flaw::Leak(1))),
    (Work::Boxes(u64::MAX), Err(Flaw::NoEnd)),
];

#[test]
fn requests_and_flaws(rt: HostRuntime) {
    for (work, found) in WORKS {
        let requests = withstands_refusals(
            rt.alloc(),
            |heap| answer_of(heap, work),
            Ok(()),
            Err(AllocError),
        );
        assert!(rt; requests == *found, "{requests:?}");
    }
}
