//! Fresh memory that several threads write, and that ends as an ordinary vector.
#![tactic(auto)]

mod block;
mod cells;
mod copies;
mod few;
mod fills;
mod forks;
mod found;
mod parts;
mod room;
mod run;
mod shares;
mod sixteens;
mod slices_over;
mod starts;

// A crate can name a run in a contract only if the types of its fields are exported.
#[doc(hidden)]
pub use block::Deed;
#[doc(hidden)]
pub use cells::{Base, Cells};
pub use copies::{Copies, extend_by_copies};
pub use few::FEW;
pub use forks::{
    CheckedWriter, Writer, extend_in_runs, write_alone, write_checked_in_runs, write_in_runs,
    write_in_runs_by_rayon,
};
pub use found::first_found;
pub use parts::{CountedParts, Part, count_parts};
pub use room::Room;
pub use run::Run;
pub use shares::{Share, extend_in_parts, write_in_parts};
pub use slices_over::{fill_slice, write_over};
