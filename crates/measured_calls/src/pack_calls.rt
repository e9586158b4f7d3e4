//! The packs, counts, distributes and indexes.

use crate::LENGTHS;
use crate::timing::{Answer, Bench, Case, Family, ints, measure_cases};
use crate::vectors::Shape;
use crew::OpenGate;
use cvl_base::limits::MOST_ELEMENTS;
use pack_dist::{
    count_true, distribute, index, pack, seg_count, seg_distribute, seg_index, seg_pack,
};
use std::io;
use std::rt::Clock;
use std::thread::Threads;

/// How many of a hundred flags are true, each with its words.
const PARTS: &[(i32, &str)] = &[(1, ", 1 % true"), (50, ", 50 % true"), (99, ", 99 % true")];

/// Makes the call of a case: of the flat ones first those that take flags, and then the segmented ones.
pub fn call<R: Threads + Sync>(bench: &Bench<'_, R>, case: &Case<'_>) -> Option<Answer> {
    let (rt, alloc, config) = (bench.rt, bench.alloc, bench.config);
    let vectors = case.vectors;
    let (xs, flags) = (&vectors.numbers.any, &vectors.flags.some);
    let (firsts, d) = (&vectors.firsts, &vectors.segments);
    if flags.len().max(d.count()).max(d.total()) > MOST_ELEMENTS {
        return None;
    }
    let first = firsts.first().copied().unwrap_or(0);
    let count = flags.len() as i32;
    Some(match case.number {
        0 => ints("pack", pack(rt, alloc, config, xs, flags, &OpenGate)),
        1 => ("count", i32::try_from(count_true(flags)).ok()),
        2 => ints("distribute", distribute(rt, alloc, config, first, count)),
        3 => ints("index", index(rt, alloc, config, first, first, count)),
        4 => ints(
            "count by segments",
            seg_count(rt, alloc, config, flags, d, &OpenGate),
        ),
        5 => (
            "pack by segments",
            match seg_pack(rt, alloc, config, xs, flags, d, &OpenGate) {
                Ok((packed, _lengths)) => packed.last().copied(),
                Err(_) => None,
            },
        ),
        6 => ints(
            "distribute by segments",
            seg_distribute(rt, alloc, config, firsts, d),
        ),
        7 => ints(
            "index by segments",
            seg_index(rt, alloc, config, firsts, firsts, d),
        ),
        _ => return None,
    })
}

/// Measures each call on vectors of each length, a flat one that takes flags with several parts of them true, a segmented
/// one on segments of several lengths.
pub fn measure<R: Print + Clock + Threads + Sync>(bench: &Bench<'_, R>) -> io::Result<()> {
    for length in LENGTHS {
        for (percent, words) in PARTS {
            let part = Shape {
                percent: *percent,
                words,
                ..Shape::whole(length)
            };
            measure_cases(bench, &Family::Packs, (0, 2), &part)?;
        }
        for segment in [1, 16, 1_000] {
            let cut = Shape {
                segment,
                words: ", 50 % true",
                ..Shape::whole(length)
            };
            measure_cases(bench, &Family::Packs, (4, 8), &cut)?;
        }
        measure_cases(bench, &Family::Packs, (2, 4), &Shape::whole(length))?;
    }
    Ok(())
}
