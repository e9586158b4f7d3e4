//! What stands before each part and goes on behind it, in 64 bits.

ghost use Rattle.std.specs.Prelude.{◌≡◌, true};
ghost use Rattle.std.specs.List.{AllPass};
ghost use Rattle.c_calls.specs.Rooms.{Fills};
ghost use Rattle.long_sums.specs.LongSums.{is_long};
ghost use Rattle.segment_parts.specs.CheckedSums.{long_behinds_of, long_carries_of};

use crate::behinds::seg_behinds;
use crate::carries::seg_carries;
use cvl_base::Fault;
use long_sums::LongSum;

/// Each number of 64 bits is an item of the sums in 64 bits. The contract names the fact, which a proof knows only of a number
/// that is read. The loop does nothing with what it reads, so that the compiler leaves it out.
fn know_longs(sums: &[i64])
    ensures { AllPass is_long sums.now }
{
    for sum in sums {
        know_long(sum);
    }
}

fn know_long(sum: &i64)
    ensures { is_long sum.now ≡ true }
{
    let _value = *sum;
}

/// Writes the sum of the elements since the last start of a segment before each part, in 64 bits, as [`seg_carries`]: `told`
/// has the sum of each part's elements since its last start, or of all of them if none starts.
///
/// `LengthMismatch`, without a place, if `starts`, `told` and the room are not equally long; the room is then as before. The
/// sums of as many integers as a vector has do not wrap. Source: the pair operator of Blelloch's segmented scans.
pub fn long_carries(starts: &[bool], told: &[i64], out: &mut [i64]) -> Result<(), Fault>
    ensures { Fills (long_carries_of starts.now told.now) result out.old out.new }
{
    know_longs(told);
    seg_carries::<LongSum>(starts, told, out)
}

/// Writes the sum of the elements behind each part up to the next start of a segment, in 64 bits, as [`seg_behinds`]: `told`
/// has the sum of each part's elements before its first start, or of all of them if none starts.
///
/// `LengthMismatch`, without a place, if `starts`, `told` and the room are not equally long; the room is then as before. The
/// sums of as many integers as a vector has do not wrap. Source: the pair operator of Blelloch's segmented scans.
pub fn long_behinds(starts: &[bool], told: &[i64], out: &mut [i64]) -> Result<(), Fault>
    ensures { Fills (long_behinds_of starts.now told.now) result out.old out.new }
{
    know_longs(told);
    seg_behinds::<LongSum>(starts, told, out)
}
