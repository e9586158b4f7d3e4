//! What the parts of a permute count, put together.

ghost use Rattle.std.specs.Prelude.{◌≡◌};
ghost use Rattle.permute_parts.specs.Counts.{all_flagged_of, all_sent_of, trues_fit_of};

use c_calls::checks::segments;
use cvl_base::{Fault, FaultNo, check_agree};

/// `LengthMismatch`, without a place, unless the counts of all parts add up to `wanted`. The sum may be any number.
pub fn all_sent(counts: &[usize], wanted: usize) -> Result<(), Fault>
    ensures { result ≡ all_sent_of counts.now wanted }
{
    let mut left = wanted;
    for count in counts {
        if *count > left {
            return Err(Fault::new(FaultNo::LengthMismatch));
        }
        left -= *count;
    }
    check_agree(left, 0)
}

/// `LengthMismatch`, without a place, unless the counts of the parts' true flags add up to `places`.
///
/// `TooLong` or `NegativeLength` if the counts are not those of a vector's parts, as [`segments`] says.
pub fn trues_fit(trues: &[i32], places: usize) -> Result<(), Fault>
    ensures { result ≡ trues_fit_of trues.now places }
{
    let counts = segments(trues)?;
    check_agree(counts.total(), places)
}

/// `LengthMismatch`, without a place, unless the counts of all parts add up to as many as the counts of the parts' true flags.
///
/// `TooLong` or `NegativeLength` if those are not the counts of a vector's parts, as [`segments`] says.
pub fn all_flagged(counts: &[usize], trues: &[i32]) -> Result<(), Fault>
    ensures { result ≡ all_flagged_of counts.now trues.now }
{
    let flagged = segments(trues)?;
    all_sent(counts, flagged.total())
}
