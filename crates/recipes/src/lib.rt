//! Recipes: scripts that come with the library, each with a function that runs it over vectors and hands back its result.
//!
//! [`sparse_matvec`] multiplies a sparse matrix by a vector, and [`line_of_sight`] finds which places an observer sees.
#![tactic(auto)]

mod products;
pub mod recipe_laws;
mod runs;
mod scripts;
mod sight;

pub use products::sparse_matvec;
pub use scripts::{LINE_OF_SIGHT, SPARSE_MATVEC};
pub use sight::line_of_sight;
