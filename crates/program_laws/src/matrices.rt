//! The laws of transposes and sparse products in parts, each a function that takes and gives nothing and whose contract is the
//! law.

ghost use Rattle.std.specs.Prelude.{◌≡◌, ◌+◌, ◌≤◌, ℕ, ℤ, List, Ok, ◌++◌, length, sum};
ghost use Rattle.call_laws.specs.InParts.{in_turn, in_two};
ghost use Rattle.sparse_products.specs.Answers.{checked_rows_product, rows_product};
ghost use Rattle.transposes.specs.Transposes.{transpose_of, transpose_range_of};

/// A transpose is the range of all its places, and a range is its first places, and behind these the others.
pub fn transposes_in_parts<T>()
    ensures whole { (rows columns : ℕ) (xs : List T) →
        transpose_range_of rows columns 0 (length xs) xs ≡ transpose_of rows columns xs }
    ensures ranges { (rows columns lowest count more : ℕ) (xs : List T) → lowest + (count + more) ≤ length xs →
        transpose_range_of rows columns lowest (count + more) xs
        ≡ in_turn (transpose_range_of rows columns lowest count xs)
        (transpose_range_of rows columns (lowest + count) more xs) }
{}

/// The product of a matrix whose rows are cut in two is that of the first rows, and behind it that of the others; the place of a
/// fault of these, a column that is no place of the vector, moves by the entries of the first. So is a checked product, if
/// neither part has a fault.
pub fn products_in_parts()
    ensures wrapped { (x columns more values others : List ℤ) (lengths later : List ℕ) →
        sum lengths ≡ length columns → length values ≡ length columns →
        sum later ≡ length more → length others ≡ length more →
        rows_product (lengths ++ later) (columns ++ more) (values ++ others) x
        ≡ in_two (length columns) (rows_product lengths columns values x) (rows_product later more others x) }
    ensures checked { (x columns more values others sums rest : List ℤ) (lengths later : List ℕ) →
        sum lengths ≡ length columns → length values ≡ length columns →
        sum later ≡ length more → length others ≡ length more →
        checked_rows_product lengths columns values x ≡ Ok sums → checked_rows_product later more others x ≡ Ok rest →
        checked_rows_product (lengths ++ later) (columns ++ more) (values ++ others) x ≡ Ok (sums ++ rest) }
{}
