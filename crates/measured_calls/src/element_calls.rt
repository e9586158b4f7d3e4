//! The elementwise calls.

use crate::timing::{Answer, Bench, Case, Family, flags, ints, measure_cases};
use crate::vectors::Shape;
use crew::OpenGate;
use cvl_base::limits::MOST_ELEMENTS;
use cvl_base::{BoolBinary, Comparison, IntBinary, IntMonoid, Unary};
use elementwise::{bool_from_int, bool1, bool2, compare, int_from_bool, int1, int2, select};
use std::io;
use std::rt::Clock;
use std::thread::Threads;

/// The vectors' lengths, among them that from which on threads share a call.
const LENGTHS: [usize; 6] = [4_194_304, 1_048_576, 262_144, 131_072, 65_536, 1_000];

/// Makes the call of a case.
pub fn call<R: Threads + Sync>(bench: &Bench<'_, R>, case: &Case<'_>) -> Option<Answer> {
    let (rt, alloc, config) = (bench.rt, bench.alloc, bench.config);
    let vectors = case.vectors;
    let (a, b) = (&vectors.numbers.any, &vectors.numbers.odd);
    let (f, g) = (&vectors.flags.some, &vectors.flags.others);
    let shifts = &vectors.numbers.shifts;
    if a.len() > MOST_ELEMENTS {
        return None;
    }
    Some(match case.number {
        0 => {
            let add = IntBinary::Monoid(IntMonoid::Add);
            ints("sum", int2(rt, alloc, config, add, a, b, &OpenGate))
        }
        1 => ints(
            "quotient",
            int2(rt, alloc, config, IntBinary::Div, a, b, &OpenGate),
        ),
        2 => ints(
            "left shift",
            int2(rt, alloc, config, IntBinary::Lsh, a, shifts, &OpenGate),
        ),
        3 => flags(
            "greater",
            compare(rt, alloc, config, Comparison::Greater, a, b),
        ),
        4 => flags("and", bool2(rt, alloc, config, BoolBinary::And, f, g)),
        5 => ints("select", select(rt, alloc, config, f, a, b)),
        6 => ints("not of integers", int1(rt, alloc, config, Unary::Not, a)),
        7 => flags("not of booleans", bool1(rt, alloc, config, Unary::Not, f)),
        8 => ints(
            "integers from booleans",
            int_from_bool(rt, alloc, config, f),
        ),
        9 => flags(
            "booleans from integers",
            bool_from_int(rt, alloc, config, a),
        ),
        10 => ints("copy of integers", int1(rt, alloc, config, Unary::Copy, a)),
        11 => flags("copy of booleans", bool1(rt, alloc, config, Unary::Copy, f)),
        _ => return None,
    })
}

/// Measures each call on vectors of each length.
pub fn measure<R: Print + Clock + Threads + Sync>(bench: &Bench<'_, R>) -> io::Result<()> {
    for length in LENGTHS {
        measure_cases(bench, &Family::Elementwise, (0, 12), &Shape::whole(length))?;
    }
    Ok(())
}
