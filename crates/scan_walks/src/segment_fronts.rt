//! How many results of the checked scans of segments fit 32 bits, from the first one on; for a group of segments at once, if they
//! are short.

ghost use Rattle.std.specs.Prelude.{◌≡◌, ◌+ℤ◌, ◌≤◌, length, map, pos, sum, unsigned_abs};
ghost use Rattle.cvl_base.specs.Descriptors.{AreLengthsWithin};
ghost use Rattle.cvl_base.specs.Limits.{most_places};
ghost use Rattle.cvl_base.specs.Folds.{fold_of};
ghost use Rattle.cvl_base.specs.Integers.{greater_of};
ghost use Rattle.range_walks.specs.Ranges.{scans_of};
ghost use Rattle.scan_walks.specs.Fronts.{fitting_front};

use crate::blocks::bounds_of;
use crate::fronts::{SHORT, fitting_of_scan};
use operators::Binary;
use operators::monoids::Max;

/// How many segments are tested together, so that they share the cost of their bounds. The elements of so many short segments
/// stay in the nearest cache until each segment is tested by itself, if it must be.
const GROUP: usize = 32;

/// How many of the results of the scans of the segments with these lengths, in order, fit 32 bits, from the first one on. Each
/// segment is tested by itself. The segments have all of the integers, and the end of the integers may cut the last one short.
fn fitting_of_each(lengths: &[i32], xs: &[i32]) -> usize
    requires lengths { AreLengthsWithin most_places lengths.now }
    requires covered { length xs.now ≤ sum (map unsigned_abs lengths.now) }
    ensures front { result ≡ fitting_front (scans_of ◌+ℤ◌ (pos 0) (map unsigned_abs lengths.now) xs.now) }
    ensures within { result ≤ length xs.now }
{
    let mut done = 0;
    let mut rest = xs;
    for length in lengths {
        let (segment, others) = rest.split_at((*length as usize).min(rest.len()));
        let fitting = fitting_of_scan(0, segment);
        if fitting < segment.len() {
            return done + fitting;
        }
        done += segment.len();
        rest = others;
    }
    done
}

/// The total of the lengths of these segments, and the greatest.
// the loop has no early exit, so that the compiler takes several lengths at a time
fn extent_of(lengths: &[i32]) -> (usize, i32)
    requires { AreLengthsWithin most_places lengths.now }
    ensures total { result.0 ≡ sum (map unsigned_abs lengths.now) }
    ensures longest { result.1 ≡ fold_of greater_of (pos 0) lengths.now }
{
    let (mut total, mut longest) = (0, 0);
    for length in lengths {
        total += *length as usize;
        longest = Max::apply(longest, *length);
    }
    (total, longest)
}

/// [`fitting_of_each`], most often from the bounds of all integers together; the longest segment has `longest`.
fn fitting_of_group(lengths: &[i32], longest: i32, xs: &[i32]) -> usize
    requires lengths { AreLengthsWithin most_places lengths.now }
    requires longest { longest ≡ fold_of greater_of (pos 0) lengths.now }
    requires covered { length xs.now ≤ sum (map unsigned_abs lengths.now) }
    ensures front { result ≡ fitting_front (scans_of ◌+ℤ◌ (pos 0) (map unsigned_abs lengths.now) xs.now) }
    ensures within { result ≤ length xs.now }
{
    if xs.len() <= GROUP * SHORT && bounds_of(&0, xs).leads_within(0, longest) {
        return xs.len();
    }
    fitting_of_each(lengths, xs)
}

/// [`fitting_of_each`], group by group.
pub(crate) fn fitting_of_scans(lengths: &[i32], xs: &[i32]) -> usize
    requires lengths { AreLengthsWithin most_places lengths.now }
    requires covered { length xs.now ≤ sum (map unsigned_abs lengths.now) }
    ensures front { result ≡ fitting_front (scans_of ◌+ℤ◌ (pos 0) (map unsigned_abs lengths.now) xs.now) }
    ensures within { result ≤ length xs.now }
{
    let (mut done, mut first, mut rest) = (0, 0, xs);
    while first < lengths.len() {
        let next = (first + GROUP).min(lengths.len());
        let group = &lengths[first..next];
        let (total, longest) = extent_of(group);
        let (elements, others) = rest.split_at(total.min(rest.len()));
        let fitting = fitting_of_group(group, longest, elements);
        if fitting < elements.len() {
            return done + fitting;
        }
        done += elements.len();
        first = next;
        rest = others;
    }
    done
}
