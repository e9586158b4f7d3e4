//! How many elements the parts of a vector have together.

ghost use Rattle.std.specs.Prelude.{◌≡◌};
ghost use Rattle.part_records.specs.Totals.{total_within};

use cvl_base::limits::MOST_PLACES;
use cvl_base::{Fault, FaultNo};

/// The sum of the lengths of parts. `TooLong`, without a place, if it is more than a vector may have. Source: CVL's segment
/// descriptors.
pub fn part_total(sizes: &[usize]) -> Result<usize, Fault>
    ensures { result ≡ total_within sizes.now }
{
    let mut so_far = 0;
    for size in sizes {
        if *size > MOST_PLACES - so_far {
            return Err(Fault::new(FaultNo::TooLong));
        }
        so_far += *size;
    }
    Ok(so_far)
}
