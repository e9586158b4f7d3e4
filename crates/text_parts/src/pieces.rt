//! A part's piece of the text of all, and of the integers of all, which is copied from what the part made.

ghost use Rattle.std.specs.Prelude.{◌≡◌, ◌+◌, ◌≤◌, ◌∷◌, length, take};
ghost use Rattle.cvl_base.specs.Rooms.{Overwrites};
ghost use Rattle.text_parts.specs.Pieces.{first_of, inside_of, last_piece_of, opening, piece_in, piece_of, put_text_of};

use cvl_base::{Fault, FaultNo};

/// Copies the first of these to a room. `LengthMismatch`, without a place, if the room has more places; it is then as before.
pub fn put_front<T: Copy>(own: &[T], out: &mut [T]) -> Result<(), Fault>
    ensures { Overwrites (first_of (length out.old) own.now) result out.old out.new }
{
    if own.len() < out.len() {
        return Err(Fault::new(FaultNo::LengthMismatch));
    }
    let (front, _) = own.split_at(out.len());
    out.copy_from_slice(front);
    Ok(())
}

/// Writes the piece that a part has of the text of all, from its own text: the first `count` bytes of `own`. The piece begins at
/// place `place` of the text of all, and fills `out`. It has what stands between the part's brackets, behind a bracket at place
/// 0, else behind a space; if that is nothing, the piece is empty. The piece of the last part, which is longer by one byte, has
/// the last bracket behind that, or is `[]` if there is nothing before it.
///
/// `LengthMismatch`, without a place, if `own` is shorter than `count`, or if `out` has the length neither of the piece nor of
/// the last part's; it is then as before. Source: this library's text format.
pub fn put_text(place: usize, count: usize, own: &[u8], out: &mut [u8]) -> Result<(), Fault>
    ensures { Overwrites (put_text_of place count own.now (length out.old)) result out.old out.new }
{
    if own.len() < count {
        return Err(Fault::new(FaultNo::LengthMismatch));
    }
    let (text, _) = own.split_at(count);
    put_piece(place, inside(text), out)
}

/// What stands between the brackets of a text.
fn inside(text: &[u8]) -> &[u8]
    ensures { result.now ≡ inside_of text.now }
{
    let (_, others) = text.split_at(text.len().min(1));
    let (inside, _) = others.split_at(text.len().saturating_sub(2));
    inside
}

/// Writes a piece whose elements have this text.
fn put_piece(place: usize, inside: &[u8], out: &mut [u8]) -> Result<(), Fault>
    ensures { Overwrites (piece_in (length out.old) place inside.now) result out.old out.new }
{
    if out.len() == piece_length(inside) {
        put_opened(place, inside, out);
        return Ok(());
    }
    if out.len() != last_piece_length(place, inside) {
        return Err(Fault::new(FaultNo::LengthMismatch));
    }
    let (front, last) = out.split_at_mut(out.len() - 1);
    put_opened(place, inside, front);
    last[0] = b']';
    Ok(())
}

/// How many bytes the piece of a part has that is not the last.
fn piece_length(inside: &[u8]) -> usize
    ensures { result ≡ length (piece_of 0 inside.now) }
{
    if inside.is_empty() {
        0
    } else {
        inside.len() + 1
    }
}

/// How many bytes the piece of the last part has.
fn last_piece_length(place: usize, inside: &[u8]) -> usize
    ensures { result ≡ length (last_piece_of place inside.now) }
{
    if place == 0 && inside.is_empty() {
        2
    } else {
        piece_length(inside) + 1
    }
}

/// Writes what a piece begins with and the text of its elements, up to the end of the room.
fn put_opened(place: usize, inside: &[u8], room: &mut [u8])
    requires { length room.old ≤ length inside.now + 1 }
    ensures { room.new ≡ take (length room.old) (opening place ∷ inside.now) }
{
    if room.is_empty() {
        return;
    }
    let (first, others) = room.split_at_mut(1);
    first[0] = opening(place);
    let (text, _) = inside.split_at(others.len());
    others.copy_from_slice(text);
}

/// What stands before the elements of a piece.
fn opening(place: usize) -> u8
    ensures { result ≡ opening place }
{
    if place == 0 { b'[' } else { b' ' }
}
