//! Where parts begin into which a vector is cut evenly.

ghost use Rattle.std.specs.Prelude.{◌≡◌, ◌+◌, ◌<◌, ◌≤◌, IfOk, length};
ghost use Rattle.cvl_base.specs.Rooms.{Overwrites};
ghost use Rattle.part_cuts.specs.Evenly.{even_place, even_places, even_places_of, parts_of};

use cvl_base::{Fault, FaultNo};

/// Writes where each part begins of a vector of `len` elements, and at last `len`: as many parts as there are places behind the
/// first. Each part has as many elements, and the first ones have one more if some are left over.
///
/// `LengthMismatch`, without a place, if there is no part, so that there are fewer than two places; the room is then as before.
/// Source: this library's profile.
pub fn even_places(len: usize, places: &mut [usize]) -> Result<(), Fault>
    ensures { Overwrites (even_places_of (length places.old) len) result places.old places.new }
{
    let parts = parts_of(places.len())?;
    write_even_places(len, parts, places);
    Ok(())
}

/// How many parts so many places are for, at last where all end. `LengthMismatch`, without a place, if that is no part.
pub(crate) fn parts_of(places: usize) -> Result<usize, Fault>
    ensures parts { result ≡ parts_of places }
    ensures more { IfOk result (λ parts. places ≡ parts + 1) }
{
    if places < 2 {
        return Err(Fault::new(FaultNo::LengthMismatch));
    }
    Ok(places - 1)
}

/// Where the part with this number begins; with the number of parts, where all end.
pub(crate) fn even_place(len: usize, parts: usize, k: usize) -> usize
    requires some { 0 < parts }
    requires within { k ≤ parts }
    ensures place { result ≡ even_place len parts k }
    ensures within { result ≤ len }
{
    len / parts * k + k.min(len % parts)
}

/// Writes where each part begins, and at last where all end.
#[inline(never)]
fn write_even_places(len: usize, parts: usize, places: &mut [usize])
    requires some { 0 < parts }
    requires room { length places.old ≡ parts + 1 }
    ensures { places.new ≡ even_places len parts }
{
    for k in 0..places.len() {
        places[k] = even_place(len, parts, k);
    }
}
