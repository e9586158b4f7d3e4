//! Counts of whole vectors of flags, and flags of segments at indices.

ghost use Rattle.std.specs.Prelude.{◌≡◌, Ok, pos};
ghost use Rattle.cvl_base.specs.Gives.{Gives};
ghost use Rattle.cvl_base.specs.Packs.{count_of};
ghost use Rattle.cvl_base.specs.SegmentedCalls.{seg_extract_of};
ghost use Rattle.c_calls.specs.Calls.{by_segments, in_limit};
ghost use Rattle.flag_calls.specs.Flags.{flags_of, made_flags};

use crate::checks::{check_limit, segments};
use cvl_base::{Fault, Refused};
use flag_calls::make_flags;
use pack_dist::seg_extract;
use std::alloc::Global;

/// The number of true flags. `TooLong`, without a place, if there are more than 2,147,483,647 flags.
pub fn count(flags: &[u8]) -> Result<i32, Fault>
    ensures { result ≡ in_limit flags.now (Ok (pos (count_of (flags_of flags.now)))) }
{
    check_limit(flags)?;
    Ok(flag_calls::count(flags))
}

/// The byte at each segment's index, as 1 if it is true and 0 if it is false.
pub fn extract_each_flag(
    alloc: Global,
    vector: &[u8],
    index: &[i32],
    lengths: &[i32],
) -> Result<Vec<u8, Global>, Refused>
    ensures { Gives (λ v. v.items) result (made_flags (by_segments lengths.now (seg_extract_of vector.now index.now))) }
{
    let d = segments(lengths)?;
    let mut bytes = seg_extract(alloc, vector, index, &d)?;
    make_flags(&mut bytes);
    Ok(bytes)
}
