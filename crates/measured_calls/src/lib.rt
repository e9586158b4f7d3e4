//! Measures calls of the library: each call of a subject on vectors of several lengths and shapes, with the best time of many.
#![tactic(auto)]

mod element_calls;
mod long_calls;
mod measured_texts;
mod numbers;
mod pack_calls;
mod permute_calls;
mod recipe_calls;
mod scan_calls;
mod timing;
mod vectors;

use crate::timing::Bench;
use cvl_base::Config;
use std::alloc::Global;
use std::io;
use std::rt::Clock;
use std::thread::Threads;

/// The vectors' lengths.
const LENGTHS: [usize; 3] = [4_194_304, 65_536, 1_000];

/// Measures one subject, and prints a line for each case: writing and reading texts; the elementwise calls; scans and reduces,
/// with the checked ones; permutes; packs, counts, distributes and indexes; the recipe of the sparse product; or a few calls of
/// several families on the longest vectors. Returns whether there is such a subject.
pub fn measure<R: Print + Clock + Threads + Sync>(
    rt: &R,
    alloc: Global,
    config: Config,
    subject: &str,
) -> io::Result<bool> {
    let bench = Bench { rt, alloc, config };
    match subject {
        "text" => measured_texts::measure(&bench)?,
        "elementwise" => element_calls::measure(&bench)?,
        "scans" => scan_calls::measure(&bench)?,
        "permutes" => permute_calls::measure(&bench)?,
        "packs" => pack_calls::measure(&bench)?,
        "recipes" => recipe_calls::measure(&bench)?,
        "long" => long_calls::measure(&bench)?,
        _ => return Ok(false),
    }
    Ok(true)
}
