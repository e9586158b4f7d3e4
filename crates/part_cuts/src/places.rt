//! Where each part begins in a vector that has exactly the elements of all parts.

ghost use Rattle.std.specs.Prelude.{◌≡◌, ◌+◌, ◌&&◌, ◌==◌, ◌<◌, ◌^◌, ℕ, Bool, length, map, sum, true, unsigned_abs};
ghost use Rattle.std.specs.List.{AllPass, list_all};
ghost use Rattle.cvl_base.specs.Rooms.{Overwrites, in_room};
ghost use Rattle.part_cuts.specs.Places.{exact_count_places_of, exact_places_by, exact_places_of, is_count, places_of};

use cvl_base::{Fault, FaultNo};

/// How a number that a part told stands for the length of the part.
trait Told<X> {
    ghost is_length: { X → Bool };

    ghost length_of: { X → ℕ };

    /// Whether the number stands for a length.
    fn is_length(told: X) -> bool
        ensures { result ≡ is_length told };

    /// The length.
    fn length_of(told: X) -> usize
        requires { is_length told ≡ true }
        ensures { result ≡ length_of told };
}

/// A length as it is.
struct Size;

impl Told<usize> for Size {
    ghost is_length = { λ n. true };

    ghost length_of = { λ n. n };

    fn is_length(_told: usize) -> bool {
        true
    }

    fn length_of(told: usize) -> usize {
        told
    }
}

/// A count of true flags.
struct Count;

impl Told<i32> for Count {
    ghost is_length = { is_count };

    ghost length_of = { unsigned_abs };

    fn is_length(told: i32) -> bool {
        told >= 0
    }

    fn length_of(told: i32) -> usize {
        told as usize
    }
}

/// Writes where each part begins in a vector, of which `sizes` has the lengths, and at last where all parts end, which is `len`.
///
/// `LengthMismatch`, without a place, if the parts have not exactly `len` elements together, or the room has not one place more
/// than there are parts; it is then as before. Source: Blelloch's scan of the sums of parts.
pub fn exact_places(sizes: &[usize], len: usize, places: &mut [usize]) -> Result<(), Fault>
    ensures { Overwrites (in_room (length places.old) (exact_places_of sizes.now len)) result places.old places.new }
{
    places_by::<usize, Size>(sizes, len, places)
}

/// The same for parts that have as many elements as flags that are true. `LengthMismatch` too if a count is negative.
pub fn exact_count_places(counts: &[i32], len: usize, places: &mut [usize]) -> Result<(), Fault>
    ensures { Overwrites (in_room (length places.old) (exact_count_places_of counts.now len)) result places.old places.new }
{
    places_by::<i32, Count>(counts, len, places)
}

/// The places of parts whose lengths some numbers stand for.
fn places_by<X: Copy, T: Told<X>>(told: &[X], len: usize, places: &mut [usize]) -> Result<(), Fault>
    ensures { Overwrites (in_room (length places.old) (exact_places_by T.is_length T.length_of told.now len))
        result places.old places.new }
{
    if !is_one_more(places.len(), told.len()) || !add_up_to::<X, T>(told, len) {
        return Err(Fault::new(FaultNo::LengthMismatch));
    }
    write_places::<X, T>(told, places);
    Ok(())
}

/// Whether there is one place more than parts.
fn is_one_more(places: usize, parts: usize) -> bool
    ensures { result ≡ (places == parts + 1) }
{
    places > 0 && places - 1 == parts
}

/// Whether each number stands for a length, and the lengths add up to this one.
fn add_up_to<X: Copy, T: Told<X>>(told: &[X], len: usize) -> bool
    ensures { result ≡ (list_all T.is_length told.now && (sum (map T.length_of told.now) == len)) }
{
    let mut left = len;
    for part in told {
        if !T::is_length(*part) {
            return false;
        }
        let length = T::length_of(*part);
        if length > left {
            return false;
        }
        left -= length;
    }
    left == 0
}

/// Writes where parts with these lengths begin, and at last where they end.
#[inline(never)]
fn write_places<X: Copy, T: Told<X>>(told: &[X], places: &mut [usize])
    requires each { AllPass T.is_length told.now }
    requires few { sum (map T.length_of told.now) < 2 ^ 64 }
    requires room { length places.old ≡ length told.now + 1 }
    ensures { places.new ≡ places_of (map T.length_of told.now) }
{
    let mut place = 0;
    for k in 0..told.len() {
        places[k] = place;
        place += T::length_of(told[k]);
    }
    places[told.len()] = place;
}
