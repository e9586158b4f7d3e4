//! Questions about rows that their lengths answer, in the caller's memory: no start of a row is kept.

ghost use Rattle.std.specs.Prelude.{◌≡◌, ◌≤◌, length, map, sum, unsigned_abs, Err, MatchResult, Ok};
ghost use Rattle.cvl_base.specs.Descriptors.{AreLengthsWithin, descriptor_of};
ghost use Rattle.cvl_base.specs.Limits.{most_elements, most_places};
ghost use Rattle.segdes.specs.Shares.{IsShareEnd};

use cvl_base::limits::MOST_ELEMENTS;
use cvl_base::{Fault, FaultNo};
use segdes::SegLengths;
use sharing::share_of_first;

/// The rows with these lengths: `NegativeLength` at the first that is negative; else `TooLong`, without a place, if the total is
/// above 4,194,304, the limit of scripts and sessions.
pub(crate) fn rows_of(lengths: &[i32]) -> Result<SegLengths<'_>, Fault>
    requires { length lengths.now ≤ most_elements }
    ensures { MatchResult result (λ d. descriptor_of lengths.now ≡ Ok d) (λ f. descriptor_of lengths.now ≡ Err f) }
{
    let rows = SegLengths::of(lengths)?;
    if rows.total() > MOST_ELEMENTS {
        return Err(Fault::new(FaultNo::TooLong));
    }
    Ok(rows)
}

/// How many entries the rows with these lengths have.
pub(crate) fn entries_of(lengths: &[i32]) -> usize
    requires { AreLengthsWithin most_places lengths.now }
    ensures { result ≡ sum (map unsigned_abs lengths.now) }
{
    let mut entries = 0;
    for length in lengths {
        entries += *length as usize;
    }
    entries
}

/// How many of the rows with these lengths the first few of so many threads have: each has about as many entries, and no row is
/// cut.
pub(crate) fn rows_of_share(lengths: &[i32], few: usize, threads: usize) -> usize
    requires lengths { AreLengthsWithin most_places lengths.now }
    requires some { 1 ≤ threads }
    requires no_more { few ≤ threads }
    ensures { IsShareEnd (map unsigned_abs lengths.now) 0 (length lengths.now) few threads result }
{
    let place = share_of_first(few, threads, entries_of(lengths));
    let (mut rows, mut start) = (0, 0);
    while rows < lengths.len() && start < place {
        start += lengths[rows] as usize;
        rows += 1;
    }
    rows
}
