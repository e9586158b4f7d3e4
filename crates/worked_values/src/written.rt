//! Worked values of how vectors are written.

ghost use Rattle.std.specs.Prelude.{◌≡◌, negsuc, pos, true, false, [], ◌∷◌};
ghost use Rattle.worked_values.specs.Written.{bools, ints, lengths};

/// Numbers in decimal, and `T` and `F`, between blanks.
pub fn written()
    ensures integers { ints "10 -2147483648 -1 0" ≡ pos 10 ∷ negsuc 2147483647 ∷ negsuc 0 ∷ pos 0 ∷ [] }
    ensures lengths_of_segments { lengths "2 0 13" ≡ 2 ∷ 0 ∷ 13 ∷ [] }
    ensures booleans { bools "T F" ≡ true ∷ false ∷ [] }
    ensures one_alone { ints "7" ≡ pos 7 ∷ [] }
    ensures nothing { ints "" ≡ [] }
{}
