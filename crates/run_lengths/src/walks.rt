//! The walks from neighbour to neighbour. No branch depends on whether two of them differ, since a processor can't predict it,
//! and loses more time on a wrong guess than a store takes.

ghost use Rattle.std.specs.Prelude.{◌≡◌, ◌+◌, ◌≤◌, ◌++◌, if◌then◌else◌, drop, length, take};
ghost use Rattle.cvl_base.specs.Limits.{most_places};
ghost use Rattle.run_lengths.specs.Runs.{numbers_from, runs_of};

use crate::numbers::RunNumber;
use cvl_base::Binary;

/// How many runs there are.
#[inline(never)]
pub(crate) fn count_runs<X: Copy, D: Binary<X, bool>>(a: &[X]) -> usize
    ensures { result ≡ length (runs_of D.value a.now) }
{
    if a.is_empty() {
        return 0;
    }
    let (mut count, mut last) = (1, a[0]);
    for k in 1..a.len() {
        let next = a[k];
        count += usize::from(D::apply(last, next));
        last = next;
    }
    count
}

/// Where the run begins that the element at a place is in.
#[inline(always)]
fn start_of(begins: bool, place: usize, before: usize) -> usize
    ensures { result ≡ (if begins then place else before) }
{
    if begins { place } else { before }
}

/// Writes the number of each run to the room, from place `from` on, and returns the place behind the last one. The first run
/// begins at place `place`.
// Each element writes the number that its run has so far, over that of the element before it in the run.
#[inline(never)]
pub(crate) fn write_runs<X: Copy, D: Binary<X, bool>, N: RunNumber>(
    a: &[X],
    place: usize,
    out: &mut [i32],
    from: usize,
) -> usize
    requires in_limit { place + length a.now ≤ most_places }
    requires fits { from + length (runs_of D.value a.now) ≤ length out.old }
    ensures end { result ≡ from + length (runs_of D.value a.now) }
    ensures as_long { length out.new ≡ length out.old }
    ensures written { take result out.new ≡ take from out.old ++ numbers_from N.number place (runs_of D.value a.now) }
    ensures behind { drop result out.new ≡ drop result out.old }
{
    if a.is_empty() {
        return from;
    }
    let (mut run, mut first, mut last) = (from, place, a[0]);
    for k in 1..a.len() {
        let next = a[k];
        out[run] = N::of(first, place + k - first);
        let begins = D::apply(last, next);
        run += usize::from(begins);
        first = start_of(begins, place + k, first);
        last = next;
    }
    out[run] = N::of(first, place + a.len() - first);
    run + 1
}
