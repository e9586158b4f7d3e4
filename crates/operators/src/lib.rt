//! Numbers and operators: integers of 32 bits, booleans, the operators on them, the monoids among these, by which vectors are
//! scanned and reduced, and the laws of folds, scans and sums of tiles over any monoid.
#![tactic(auto)]

pub mod comparisons;
pub mod folds;
pub mod integer;
pub mod monoid;
pub mod monoids;
pub mod operator;
pub mod operator_laws;
pub mod seg;
pub mod sides;
pub mod singles;
pub mod tile_sums;

pub use monoid::{Monoid, Packed};
pub use operator::{Binary, Single};
pub use seg::Seg;
