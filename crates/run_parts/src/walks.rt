//! The walks over the elements of a part: one list after another, each by the walk over neighbours of `run_lengths`.

ghost use Rattle.std.specs.Prelude.{◌≡◌, ◌+◌, ◌≤◌, ◌++◌, drop, length, map, take};
ghost use Rattle.cvl_base.specs.Limits.{most_places};
ghost use Rattle.cvl_base.specs.Nests.{cut_of};
ghost use Rattle.run_lengths.specs.Runs.{run_count_of, runs_in, runs_of};
ghost use Rattle.run_parts.specs.Runs.{lengths_of_runs};

use cvl_base::Binary;
use run_lengths::{Length, run_numbers_over};
use segdes::SegLengths;

/// How many runs there are.
pub(crate) fn count_runs<X: Copy, D: Binary<X, bool>>(a: &[X]) -> usize
    requires in_limit { length a.now ≤ most_places }
    ensures { result ≡ length (runs_of D.value a.now) }
{
    // without a room the call only counts
    let mut count = 0;
    let _ = run_numbers_over::<X, D, Length>(a, &mut [], &mut count);
    count
}

/// Writes the length of each run of a list to a room, from a place on, and returns the place behind the last one.
pub(crate) fn write_runs<X: Copy, D: Binary<X, bool>>(
    a: &[X],
    own: &mut [i32],
    from: usize,
) -> usize
    requires in_limit { length a.now ≤ most_places }
    requires fits { from + length a.now ≤ length own.old }
    ensures end { result ≡ from + length (runs_of D.value a.now) }
    ensures as_long { length own.new ≡ length own.old }
    ensures written { take result own.new ≡ take from own.old ++ lengths_of_runs (runs_of D.value a.now) }
    ensures behind { drop result own.new ≡ drop result own.old }
{
    let mut count = 0;
    let (_done, room) = own.split_at_mut(from);
    let _ = run_numbers_over::<X, D, Length>(a, room, &mut count);
    from + count
}

/// Writes the lengths of the runs of segments with these lengths, as far as there are elements, to a room from a place on, and
/// returns the place behind the last one.
pub(crate) fn write_segment_runs<X: Copy, D: Binary<X, bool>>(
    a: &[X],
    lengths: &SegLengths,
    own: &mut [i32],
    from: usize,
) -> usize
    requires in_limit { length a.now ≤ most_places }
    requires fits { from + length a.now ≤ length own.old }
    ensures end { result ≡ from + length (runs_in D.value (cut_of lengths.now a.now)) }
    ensures as_long { length own.new ≡ length own.old }
    ensures written { take result own.new ≡ take from own.old ++ lengths_of_runs (runs_in D.value (cut_of lengths.now a.now)) }
    ensures behind { drop result own.new ≡ drop result own.old }
{
    let (mut first, mut end) = (0, from);
    for s in 0..lengths.count() {
        let next = first + lengths.length(s).min(a.len() - first);
        end = write_runs::<X, D>(&a[first..next], own, end);
        first = next;
    }
    end
}

/// Writes how many runs each of the segments with these lengths has, as far as there are elements.
pub(crate) fn write_segment_counts<X: Copy, D: Binary<X, bool>>(
    a: &[X],
    lengths: &SegLengths,
    out: &mut [i32],
)
    requires in_limit { length a.now ≤ most_places }
    requires room { length out.old ≡ length lengths.now }
    ensures { out.new ≡ map (run_count_of D.value) (cut_of lengths.now a.now) }
{
    let mut first = 0;
    for s in 0..lengths.count() {
        let next = first + lengths.length(s).min(a.len() - first);
        out[s] = count_runs::<X, D>(&a[first..next]) as i32;
        first = next;
    }
}
