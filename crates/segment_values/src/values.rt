//! A value of each segment.

ghost use Rattle.std.specs.Prelude.{◌≡◌, ◌≤◌, List, length, map, sum};
ghost use Rattle.cvl_base.specs.Limits.{most_places};
ghost use Rattle.cvl_base.specs.Nests.{cut_of};
ghost use Rattle.cvl_base.specs.Rooms.{Overwrites, in_room};
ghost use Rattle.segment_values.specs.Values.{each_of};

use cvl_base::{Fault, check_agree};
use segdes::SegLengths;

/// Makes a value of the elements of a segment.
pub trait SegmentValue<X, V> {
    ghost value: { List X → V };

    /// The value of at most 2,147,483,647 elements.
    fn of(segment: &[X]) -> V
        requires { length segment.now ≤ most_places }
        ensures { result ≡ value segment.now };
}

/// Writes the value of each segment.
#[inline(never)]
fn write_values<X, V: Copy, S: SegmentValue<X, V>>(a: &[X], d: &SegLengths, out: &mut [V])
    requires total { sum d.now ≡ length a.now }
    requires one_each { length out.old ≡ length d.now }
    requires in_limit { length a.now ≤ most_places }
    ensures { out.new ≡ map S.value (cut_of d.now a.now) }
{
    let mut first = 0;
    for s in 0..d.count() {
        let end = first + d.length(s);
        out[s] = S::of(&a[first..end]);
        first = end;
    }
}

/// The value of each segment, into a room that has a place for each.
///
/// `LengthMismatch`, without a place, if the segments do not add up to the vector, or the room does not have a place for each
/// segment; it is then as before.
pub fn values_over<X, V: Copy, S: SegmentValue<X, V>>(
    a: &[X],
    d: &SegLengths,
    out: &mut [V],
) -> Result<(), Fault>
    ensures { Overwrites (in_room (length out.old) (each_of S.value a.now d.now)) result out.old out.new }
{
    d.check_total(a)?;
    check_agree(d.count(), out.len())?;
    write_values::<X, V, S>(a, d, out);
    Ok(())
}
