//! Measures the library if its first argument is the word `measure`; otherwise it does nothing. The second argument names what to
//! measure: `text`, `elementwise`, `scans`, `permutes`, `packs`, `recipes` or `long`; without it, all of them but the last. The
//! third is the number of workers, by default 4, and the fourth the length of tiles, by default 4,096.
//! `docs/dev/performance/measure` puts plain loops in C++ beside the calls, `docs/dev/performance/loops.cpp`, which print the
//! same lines; `docs/dev/performance/measure_workers` measures `long` with many numbers of workers and lengths of tiles.
#![tactic(auto)]

use cvl_base::Config;
use measured_calls::measure;
use std::{env, io};

/// How many elements a tile has if no argument says so.
const TILE: &str = "4096";

/// The number of workers if no argument gives one.
const WORKERS: &str = "4";

/// The words for what is measured if no argument names it.
const SUBJECTS: [&str; 6] = [
    "text",
    "elementwise",
    "scans",
    "permutes",
    "packs",
    "recipes",
];

/// The number that an argument or its default says; 0 if it is none.
fn number(argument: Option<String>, default: &str) -> u32 {
    match argument {
        Some(text) => text.as_str().parse::<u32>().unwrap_or(0),
        None => default.parse::<u32>().unwrap_or(0),
    }
}

fn main(rt: HostRuntime) -> io::Result<()> {
    let mut arguments = env::args(&rt)?;
    let _program = arguments.next();
    let Some(word) = arguments.next() else {
        return Ok(());
    };
    if word.as_str() != "measure" {
        return Ok(());
    }
    let wanted = arguments.next();
    let workers = number(arguments.next(), WORKERS);
    let tile = number(arguments.next(), TILE);
    let Ok(config) = Config::new(tile, workers) else {
        println!(&rt; "there are 1 to 64 workers, and a tile has 1 to 65536 elements")?;
        return Ok(());
    };
    let Some(subject) = wanted else {
        for subject in SUBJECTS {
            measure(&rt, rt.alloc(), config, subject)?;
        }
        return Ok(());
    };
    if !measure(&rt, rt.alloc(), config, subject.as_str())? {
        println!(&rt; "measured are text, elementwise, scans, permutes, packs, recipes and long")?;
    }
    Ok(())
}
