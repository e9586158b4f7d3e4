//! The lines and columns of places in an input.

ghost use Rattle.std.specs.Prelude.{◌≡◌, ◌==◌, ◌≤◌, count_by, length, take};
ghost use Rattle.explained_inputs.specs.TokenPlaces.{column_at, line_at};

use explained_calls::first_bytes;

/// The line of a place, counted from 1.
pub(crate) fn line_at(bytes: &[u8], place: usize) -> usize
    ensures { result ≡ line_at bytes.now place }
{
    count_of(b'\n', bytes, place) + 1
}

/// How often this byte stands before a place.
pub(crate) fn count_of(byte: u8, bytes: &[u8], place: usize) -> usize
    ensures count { result ≡ count_by (λ b. b == byte) (take place bytes.now) }
    ensures few { result ≤ length bytes.now }
{
    first_bytes(bytes, place)
        .iter()
        .filter(|b| **b == byte)
        .count()
}

/// The column of a place, counted from 1 in bytes.
pub(crate) fn column_at(bytes: &[u8], place: usize) -> usize
    ensures { result ≡ column_at bytes.now place }
{
    let before = first_bytes(bytes, place);
    let mut column = 1;
    for byte in before {
        column = if *byte == b'\n' { 1 } else { column + 1 };
    }
    column
}
