//! Where the parts of a text begin, which is cut at white space.

ghost use Rattle.std.specs.Prelude.{◌≡◌, ◌+◌, ◌<◌, ◌≤◌, OnOk, length};
ghost use Rattle.cvl_base.specs.Rooms.{Overwrites};
ghost use Rattle.part_cuts.specs.White.{IsCutAtWhite, white_from, white_places, white_places_of};

use crate::evenly::{even_place, parts_of};
use call_reader::InputBytes;
use cvl_base::Fault;
use line_reader::token::run_length;

/// Writes where each part of a text begins, and at last where the text ends: as many parts as there are places behind the first.
/// The first part begins at 0, and each other at the first white space from where it would begin if all were even, or at the
/// text's end. So no token is in two parts.
///
/// `LengthMismatch`, without a place, if there is no part, so that there are fewer than two places; the room is then as before.
/// Source: this library's input format.
pub fn white_places(text: &[u8], places: &mut [usize]) -> Result<(), Fault>
    ensures places { Overwrites (white_places_of (length places.old) text.now) result places.old places.new }
    ensures cut { OnOk result (IsCutAtWhite text.now places.new) }
{
    let parts = parts_of(places.len())?;
    write_white_places(text, parts, places);
    Ok(())
}

/// Writes where each part of a text begins, and at last where it ends.
#[inline(never)]
fn write_white_places(text: &[u8], parts: usize, places: &mut [usize])
    requires some { 0 < parts }
    requires room { length places.old ≡ parts + 1 }
    ensures places { places.new ≡ white_places text.now parts }
    ensures cut { IsCutAtWhite text.now places.new }
{
    let mut place = 0;
    for k in 0..parts {
        places[k] = place;
        // a part may begin behind the next even place: from there on it need not be looked for again
        place = white_from(text, even_place(text.len(), parts, k + 1).max(place));
    }
    places[parts] = place;
}

/// The first white space of a text from a place on, or the text's end.
fn white_from(text: &[u8], place: usize) -> usize
    requires { place ≤ length text.now }
    ensures place { result ≡ white_from text.now place }
    ensures within { result ≤ length text.now }
{
    let (_, others) = text.split_at(place);
    place + run_length::<InputBytes>(others)
}
