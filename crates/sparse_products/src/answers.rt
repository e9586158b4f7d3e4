//! The answers of a product: the faults found before the walk over the rows, and those that the walk finds.

ghost use Rattle.std.specs.Prelude.{◌≡◌, ◌≤◌, ℕ, ℤ, List, Err, IfSome, MatchResult, length, map, sum};
ghost use Rattle.std.specs.List.{zip};
ghost use Rattle.cvl_base.specs.Gives.{Gives};
ghost use Rattle.cvl_base.specs.Limits.{most_places};
ghost use Rattle.cvl_base.specs.Nests.{cut_of};
ghost use Rattle.fresh.specs.Found.{first_without};
ghost use Rattle.sparse_products.specs.Answers.{rows_within};
ghost use Rattle.sparse_products.specs.Rows.{product_by, row_item, row_value};

use crate::row_walks::RowWalk;
use cvl_base::{Fault, FaultNo, Refused};
use permute_walks::check_places_alone;
use std::alloc::Allocator;

/// Checks that columns and values are equal in number, and that the rows have as many entries: else `IndexOutOfRange` at the
/// first column that is none of `places` places, then `LengthMismatch`, without a place.
pub(crate) fn check_entries(
    columns: &[i32],
    values: &[i32],
    places: usize,
    entries: usize,
) -> Result<(), Fault>
    requires { length columns.now ≤ most_places }
    ensures { MatchResult result (λ _. (length values.now ≡ length columns.now) × (entries ≡ length columns.now))
        (λ f. (lengths : List ℕ) → sum lengths ≡ entries → rows_within places lengths columns.now values.now ≡ Err f) }
{
    if values.len() == columns.len() && entries == columns.len() {
        return Ok(());
    }
    check_places_alone(columns, places, 0)?;
    Err(Fault::new(FaultNo::LengthMismatch))
}

/// The product that was written, or why a row has no value: `IndexOutOfRange` at the first column that is none of `places`
/// places, else `Overflow` at the row.
pub(crate) fn product_or_fault<S: RowWalk, A: Allocator>(
    columns: &[i32],
    places: usize,
    written: Vec<i32, A>,
    found: Option<usize>,
) -> Result<Vec<i32, A>, Refused>
    requires few { length columns.now ≤ most_places }
    requires rows { IfSome found (λ row. row ≤ most_places) }
    ensures { (lengths : List ℕ) (values x : List ℤ) → places ≡ length x → length values ≡ length columns.now
        → sum lengths ≡ length columns.now
        → written.items ≡ map (row_item S.rule x) (cut_of lengths (zip columns.now values))
        → found ≡ first_without 0 (map (row_value S.rule x) (cut_of lengths (zip columns.now values)))
        → Gives (λ y. y.items) result (product_by S.rule lengths columns.now values x) }
{
    match found {
        None => Ok(written),
        Some(row) => {
            check_places_alone(columns, places, 0)?;
            Err(Refused::Fault(Fault::at(FaultNo::Overflow, row as u32)))
        }
    }
}
