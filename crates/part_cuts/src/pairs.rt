//! Where each part begins in a vector, by where it begins in two others.

ghost use Rattle.std.specs.Prelude.{◌≡◌, ◌+◌, ◌-◌, ◌^◌, ℕ, Bool, length, nat_lt, not, true};
ghost use Rattle.std.specs.List.{list_all, zip};
ghost use Rattle.cvl_base.specs.Rooms.{Overwrites, in_room};
ghost use Rattle.part_cuts.specs.Pairs.{added_places_of, are_places, paired_places_of, places_of_pairs, remaining_places_of};

use cvl_base::{Fault, FaultNo};

/// A place in a vector, by the places in two others.
trait Paired {
    ghost has_place: { ℕ → ℕ → Bool };

    ghost place: { ℕ → ℕ → ℕ };

    /// Whether two places have one.
    fn has_place(first: usize, second: usize) -> bool
        ensures { result ≡ has_place first second };

    /// Which it is.
    fn place(first: usize, second: usize) -> usize
        requires { has_place first second ≡ true }
        ensures { result ≡ place first second };
}

/// What the second leaves of the first.
struct Rest;

impl Paired for Rest {
    ghost has_place = { λ place count. not (nat_lt place count) };

    ghost place = { λ place count. place - count };

    fn has_place(from: usize, taken: usize) -> bool {
        from >= taken
    }

    fn place(from: usize, taken: usize) -> usize {
        from - taken
    }
}

/// Both together.
struct Sum;

impl Paired for Sum {
    ghost has_place = { λ first second. nat_lt (first + second) (2 ^ 64) };

    ghost place = { λ first second. first + second };

    fn has_place(first: usize, second: usize) -> bool {
        second <= usize::MAX - first
    }

    fn place(first: usize, second: usize) -> usize {
        first + second
    }
}

/// Writes where each part goes on in a vector that has the elements which another vector does not take: `from` says how many
/// elements of both stand before the part, at last how many in all, and `taken` how many of these are the other vector's.
///
/// `LengthMismatch`, without a place, if more are taken than stand there, if the last place is not `len`, the length of the
/// vector, or if `from`, `taken` and the room are not equally long; the room is then as before. Source: Blelloch's split by
/// flags.
pub fn remaining_places(
    from: &[usize],
    taken: &[usize],
    len: usize,
    rest: &mut [usize],
) -> Result<(), Fault>
    ensures { Overwrites (in_room (length rest.old) (remaining_places_of from.now taken.now len)) result rest.old rest.new }
{
    paired_places::<Rest>(from, taken, len, rest)
}

/// Writes where each part goes on in a vector that has the elements of two others: the place in one plus the place in the other.
///
/// `LengthMismatch`, without a place, if a sum does not fit 64 bits, if the last one is not `len`, the length of the vector, or
/// if `starts`, `others` and the room are not equally long; the room is then as before. Source: the concatenation of segments.
pub fn added_places(
    starts: &[usize],
    others: &[usize],
    len: usize,
    places: &mut [usize],
) -> Result<(), Fault>
    ensures { Overwrites (in_room (length places.old) (added_places_of starts.now others.now len)) result places.old places.new }
{
    paired_places::<Sum>(starts, others, len, places)
}

/// The place of each pair.
fn paired_places<P: Paired>(
    firsts: &[usize],
    seconds: &[usize],
    len: usize,
    places: &mut [usize],
) -> Result<(), Fault>
    ensures { Overwrites (in_room (length places.old) (paired_places_of P.has_place P.place firsts.now seconds.now len))
        result places.old places.new }
{
    if firsts.len() != seconds.len()
        || seconds.len() != places.len()
        || !are_places::<P>(firsts, seconds, len)
    {
        return Err(Fault::new(FaultNo::LengthMismatch));
    }
    write_pairs::<P>(firsts, seconds, places);
    Ok(())
}

/// Whether each pair has a place, and the last one is `len`.
fn are_places<P: Paired>(firsts: &[usize], seconds: &[usize], len: usize) -> bool
    requires { length firsts.now ≡ length seconds.now }
    ensures { result ≡ are_places P.has_place P.place firsts.now seconds.now len }
{
    let mut ends = false;
    for k in 0..firsts.len() {
        if !P::has_place(firsts[k], seconds[k]) {
            return false;
        }
        ends = P::place(firsts[k], seconds[k]) == len;
    }
    ends
}

/// Writes the place of each pair into a room that is as long.
#[inline(never)]
fn write_pairs<P: Paired>(firsts: &[usize], seconds: &[usize], places: &mut [usize])
    requires each { list_all (λ p. P.has_place p.0 p.1) (zip firsts.now seconds.now) ≡ true }
    requires pairs { length firsts.now ≡ length seconds.now }
    requires room { length seconds.now ≡ length places.old }
    ensures { places.new ≡ places_of_pairs P.has_place P.place firsts.now seconds.now }
{
    for k in 0..firsts.len() {
        places[k] = P::place(firsts[k], seconds[k]);
    }
}
