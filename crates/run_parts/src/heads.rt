//! The head of a part, whose elements go on from a segment that began before the part: which of them begin runs.

ghost use Rattle.std.specs.Prelude.{◌≡◌, ◌+◌, ◌≤◌, ◌∷◌, nat_lt, drop, length};
ghost use Rattle.run_lengths.specs.Runs.{runs_of};
ghost use Rattle.run_parts.specs.Runs.{in_front_of, range_of, runs_behind};

use cvl_base::Binary;

/// Whether a vector has fewer than so many elements from a place on.
pub(crate) fn lacks_range<X>(a: &[X], from: usize, elements: usize) -> bool
    ensures { result ≡ nat_lt (length a.now) (from + elements) }
{
    from > a.len() || elements > a.len() - from
}

/// How many elements at the front of a list go on the run of the element before it.
fn going_on<X: Copy, D: Binary<X, bool>>(front: X, xs: &[X]) -> usize
    ensures within { result ≤ length xs.now }
    ensures begin { drop 1 (runs_of D.value (front ∷ xs.now)) ≡ runs_of D.value (drop result xs.now) }
{
    let (mut count, mut last) = (0, front);
    while count < xs.len() && !D::apply(last, xs[count]) {
        last = xs[count];
        count += 1;
    }
    count
}

/// How many elements at the front of a part's head go on a run that began before the part. The others begin runs of their own.
pub(crate) fn going_on_in_head<X: Copy, D: Binary<X, bool>>(
    a: &[X],
    from: usize,
    head: usize,
) -> usize
    requires { from + head ≤ length a.now }
    ensures within { result ≤ head }
    ensures begin { runs_behind D.value (in_front_of from a.now) (range_of from head a.now)
        ≡ runs_of D.value (drop result (range_of from head a.now)) }
{
    if from == 0 {
        return 0;
    }
    going_on::<X, D>(a[from - 1], &a[from..from + head])
}
