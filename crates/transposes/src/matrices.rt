//! A matrix in row order.

ghost use Rattle.std.specs.Prelude.{◌≡◌, ◌≢◌, ◌*◌, ◌≤◌, MatchResult, length};
ghost use Rattle.cvl_base.specs.Faults.{fault};
ghost use Rattle.cvl_base.specs.Limits.{most_places};
ghost use Rattle.cvl_base.specs.declared.fault.FaultNo.TheVariants as no;

use cvl_base::{Fault, FaultNo, check_agree};

/// A matrix in row order.
#[derive(Drop)]
pub(crate) struct Matrix<'a, T> {
    pub(crate) elements: &'a [T],
    pub(crate) rows: usize,
    pub(crate) columns: usize,
    ghost long: { rows * columns ≡ length elements.now },
    ghost in_limit: { length elements.now ≤ most_places },
}

/// `LengthMismatch` unless `rows` times `columns` is `elements`.
pub(crate) fn check_shape(rows: usize, columns: usize, elements: usize) -> Result<(), Fault>
    requires { elements ≤ most_places }
    ensures { MatchResult result (λ _. rows * columns ≡ elements)
        (λ f. (f ≡ fault no.LengthMismatch) × (rows * columns ≢ elements)) }
{
    match rows.checked_mul(columns) {
        Some(product) => check_agree(product, elements),
        None => Err(Fault::new(FaultNo::LengthMismatch)),
    }
}
