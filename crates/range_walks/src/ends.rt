//! Where segments end, counted at each place. The number of the segment that holds an element is then the sum of the counts up
//! to its place, which no branch depends on.

ghost use Rattle.std.specs.Prelude.{◌≡◌, ◌<◌, ◌^◌, length, map, replicate, sum, unsigned_abs};
ghost use Rattle.cvl_base.specs.Descriptors.{AreLengthsWithin};
ghost use Rattle.cvl_base.specs.Limits.{most_places};
ghost use Rattle.range_walks.specs.Ends.{AreEnds};

/// Counts at each place how many of the segments with these lengths end before it and behind the place before. There must be a
/// place for each of their elements, and one more for the end of the last. Nothing may be counted before.
pub fn count_ends(lengths: &[i32], ends: &mut [u8])
    requires lengths { AreLengthsWithin most_places lengths.now }
    requires few { length lengths.now < 2 ^ 8 }
    requires room { sum (map unsigned_abs lengths.now) < length ends.old }
    requires clear { ends.old ≡ replicate (length ends.old) 0 }
    ensures counts { AreEnds (map unsigned_abs lengths.now) ends.new }
    ensures places { length ends.new ≡ length ends.old }
{
    let mut end = 0;
    for length in lengths {
        end += *length as usize;
        ends[end] += 1;
    }
}
