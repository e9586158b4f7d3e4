//! A few calls of several families on the longest vectors, to choose a number of workers and a length of tiles.

use crate::timing::{Bench, Family, measure_cases};
use crate::vectors::Shape;
use cvl_base::limits::MOST_ELEMENTS;
use std::io;
use std::rt::Clock;
use std::thread::Threads;

/// How many elements a segment has.
const SEGMENT: usize = 1000;

/// Measures the scan and the sum, the checked ones too, whole and by segments; the simple and the back permute at random;
/// and the pack of a half.
pub fn measure<R: Print + Clock + Threads + Sync>(bench: &Bench<'_, R>) -> io::Result<()> {
    let whole = Shape::whole(MOST_ELEMENTS);
    let cut = Shape {
        segment: SEGMENT,
        ..Shape::whole(MOST_ELEMENTS)
    };
    let at_random = Shape {
        at_random: true,
        ..Shape::whole(MOST_ELEMENTS)
    };
    measure_cases(bench, &Family::Scans, (0, 4), &whole)?;
    measure_cases(bench, &Family::Scans, (4, 6), &cut)?;
    measure_cases(bench, &Family::Permutes, (0, 2), &at_random)?;
    measure_cases(bench, &Family::Packs, (0, 1), &whole)
}
