//! The permutes.

use crate::LENGTHS;
use crate::timing::{Answer, Bench, Case, Family, ints, measure_cases};
use crate::vectors::Shape;
use crew::OpenGate;
use cvl_base::limits::MOST_ELEMENTS;
use permutes::{back, default_into, select, simple};
use segmented_permutes::{seg_back, seg_default_into, seg_select, seg_simple};
use std::io;
use std::rt::Clock;
use std::thread::Threads;

/// How many elements a segment has; the last one may have fewer.
const SEGMENT: usize = 1_000;

/// The orders of an index, each with its words.
const ORDERS: &[(bool, &str)] = &[(false, ", in order"), (true, ", at random")];

/// Makes the call of a case, first the flat ones. The defaults are the divisors.
pub fn call<R: Threads + Sync>(bench: &Bench<'_, R>, case: &Case<'_>) -> Option<Answer> {
    let (rt, alloc, config) = (bench.rt, bench.alloc, bench.config);
    let vectors = case.vectors;
    let (xs, is) = (&vectors.numbers.any, &vectors.index);
    let (defaults, chosen) = (&vectors.numbers.odd, &vectors.flags.chosen);
    let d = &vectors.segments;
    if is.len() > MOST_ELEMENTS {
        return None;
    }
    let (name, answer) = match case.number {
        0 => ("simple", simple(rt, alloc, config, xs, is, &OpenGate)),
        1 => ("back", back(rt, alloc, config, xs, is, &OpenGate)),
        2 => (
            "select of half",
            select(rt, alloc, config, xs, is, chosen, &OpenGate),
        ),
        3 => (
            "default",
            default_into(rt, alloc, config, xs, is, defaults, &OpenGate),
        ),
        4 => (
            "simple by segments",
            seg_simple(rt, alloc, config, xs, is, d, &OpenGate),
        ),
        5 => (
            "back by segments",
            seg_back(rt, alloc, config, xs, is, d, d, &OpenGate),
        ),
        6 => (
            "select of half by segments",
            seg_select(rt, alloc, config, xs, is, chosen, d, &OpenGate),
        ),
        7 => (
            "default by segments",
            seg_default_into(rt, alloc, config, xs, is, defaults, d, d, &OpenGate),
        ),
        _ => return None,
    };
    Some(ints(name, answer))
}

/// Measures each call on vectors of each length, with an index in order and one at random.
pub fn measure<R: Print + Clock + Threads + Sync>(bench: &Bench<'_, R>) -> io::Result<()> {
    for length in LENGTHS {
        for (at_random, words) in ORDERS {
            let whole = Shape {
                at_random: *at_random,
                words,
                ..Shape::whole(length)
            };
            measure_cases(bench, &Family::Permutes, (0, 4), &whole)?;
            let cut = Shape {
                segment: SEGMENT,
                ..whole
            };
            measure_cases(bench, &Family::Permutes, (4, 8), &cut)?;
        }
    }
    Ok(())
}
