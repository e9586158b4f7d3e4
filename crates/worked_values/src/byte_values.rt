//! Worked values of bytes widened to integers, and of integers narrowed to bytes.

ghost use Rattle.std.specs.Prelude.{◌≡◌, [], Ok, Err};
ghost use Rattle.byte_numbers.specs.Bytes.{bytes_from_ints_of, ints_from_bytes};
ghost use Rattle.worked_values.specs.Written.{ints, lengths, overflow};

/// A byte is an integer from 0 to 255; the first that is none counts.
pub fn bytes_and_integers()
    ensures widened { ints_from_bytes (lengths "0 65 128 255") ≡ ints "0 65 128 255" }
    ensures narrowed { bytes_from_ints_of (ints "0 65 128 255") ≡ Ok (lengths "0 65 128 255") }
    ensures nothing { bytes_from_ints_of [] ≡ Ok [] }
    ensures above { bytes_from_ints_of (ints "255 256 -1") ≡ Err (overflow 1) }
    ensures below { bytes_from_ints_of (ints "0 7 -1 300") ≡ Err (overflow 2) }
    ensures greatest { bytes_from_ints_of (ints "2147483647") ≡ Err (overflow 0) }
    ensures least { bytes_from_ints_of (ints "-2147483648") ≡ Err (overflow 0) }
{}
