//! The scans and reduces.

use crate::LENGTHS;
use crate::timing::{Answer, Bench, Case, Family, ints, measure_cases};
use crate::vectors::Shape;
use crew::OpenGate;
use cvl_base::IntMonoid;
use cvl_base::limits::MOST_ELEMENTS;
use scan_ops::{
    checked_reduce, checked_scan, checked_seg_reduce, checked_seg_scan, int_reduce, int_scan,
    seg_int_reduce, seg_int_scan,
};
use std::io;
use std::rt::Clock;
use std::thread::Threads;

/// Makes the call of a case, first the flat ones. One operator stands for all, since they share their walks. The checked ones add
/// small numbers, so that none of their sums is outside 32 bits.
pub fn call<R: Threads + Sync>(bench: &Bench<'_, R>, case: &Case<'_>) -> Option<Answer> {
    let (rt, alloc, config) = (bench.rt, bench.alloc, bench.config);
    let vectors = case.vectors;
    let (a, d) = (&vectors.numbers.any, &vectors.segments);
    let small = &vectors.numbers.shifts;
    let add = IntMonoid::Add;
    if small.len() > MOST_ELEMENTS {
        return None;
    }
    Some(match case.number {
        0 => ints(
            "scan of sums",
            int_scan(rt, alloc, config, add, a, &OpenGate),
        ),
        1 => ("sum", int_reduce(rt, alloc, config, add, a, &OpenGate).ok()),
        2 => ints(
            "checked scan of sums",
            checked_scan(rt, alloc, config, small, &OpenGate),
        ),
        3 => (
            "checked sum",
            checked_reduce(rt, alloc, config, small, &OpenGate).ok(),
        ),
        4 => ints(
            "scan of sums by segments",
            seg_int_scan(rt, alloc, config, add, a, d, &OpenGate),
        ),
        5 => ints(
            "sums by segments",
            seg_int_reduce(rt, alloc, config, add, a, d, &OpenGate),
        ),
        6 => ints(
            "checked scan of sums by segments",
            checked_seg_scan(rt, alloc, config, small, d, &OpenGate),
        ),
        7 => ints(
            "checked sums by segments",
            checked_seg_reduce(rt, alloc, config, small, d, &OpenGate),
        ),
        _ => return None,
    })
}

/// Measures each call on vectors of each length, the segmented ones on segments of several lengths.
pub fn measure<R: Print + Clock + Threads + Sync>(bench: &Bench<'_, R>) -> io::Result<()> {
    for length in LENGTHS {
        measure_cases(bench, &Family::Scans, (0, 4), &Shape::whole(length))?;
        for segment in [1, 4, 16, 1000, length] {
            for with_empty in [false, true] {
                let cut = Shape {
                    segment,
                    with_empty,
                    ..Shape::whole(length)
                };
                measure_cases(bench, &Family::Scans, (4, 8), &cut)?;
            }
        }
    }
    Ok(())
}
