//! Worked values of the transpose of a matrix.

ghost use Rattle.std.specs.Prelude.{◌≡◌, ℤ, [], Ok, Err};
ghost use Rattle.transposes.specs.Transposes.{transpose_of, transpose_range_of};
ghost use Rattle.worked_values.specs.Written.{bools, ints, length_mismatch};

/// The rows of a matrix become columns; there may be no rows, or rows without elements.
pub fn rows_and_columns()
    ensures two_rows { transpose_of 2 3 (ints "1 2 3 4 5 6") ≡ Ok (ints "1 4 2 5 3 6") }
    ensures three_rows { transpose_of 3 2 (ints "1 2 3 4 5 6") ≡ Ok (ints "1 3 5 2 4 6") }
    ensures one_row { transpose_of 1 3 (ints "1 2 3") ≡ Ok (ints "1 2 3") }
    ensures one_column { transpose_of 3 1 (bools "T F F") ≡ Ok (bools "T F F") }
    ensures no_rows { transpose_of {X = ℤ} 0 3 [] ≡ Ok [] }
    ensures no_columns { transpose_of {X = ℤ} 3 0 [] ≡ Ok [] }
    ensures one_element_short { transpose_of 2 3 (ints "1 2 3 4 5") ≡ Err length_mismatch }
    ensures one_element_more { transpose_of 2 2 (ints "1 2 3 4 5") ≡ Err length_mismatch }
{}

/// Some of its places in order.
pub fn ranges_of_places()
    ensures across_columns { transpose_range_of 2 3 1 3 (ints "1 2 3 4 5 6") ≡ Ok (ints "4 2 5") }
    ensures within_a_column { transpose_range_of 4 2 5 2 (ints "1 2 3 4 5 6 7 8") ≡ Ok (ints "4 6") }
    ensures all { transpose_range_of 2 3 0 6 (ints "1 2 3 4 5 6") ≡ Ok (ints "1 4 2 5 3 6") }
    ensures no_place { transpose_range_of 2 3 6 0 (ints "1 2 3 4 5 6") ≡ Ok [] }
    ensures past_the_end { transpose_range_of 2 3 4 3 (ints "1 2 3 4 5 6") ≡ Err length_mismatch }
    ensures one_element_short { transpose_range_of 2 3 0 1 (ints "1 2 3 4 5") ≡ Err length_mismatch }
{}
