//! Runs of equal neighbours of a segmented vector in parts, which are cut at any places: a segment may begin in one part and
//! go on in others, and so may a run.
//!
//! A part has the runs that begin in it: [`part_run_lengths`] writes how long each is, as far as the part goes. Once,
//! [`run_places`] puts together where the runs of each part go, and how many elements the last one of each part has in later
//! parts. Then each part puts its lengths into its range of the room, by [`put_run_lengths`], or where its runs begin, by
//! [`put_run_starts`].
//!
//! For counts each part tells how many runs begin in its head, by [`part_run_fronts`]; what goes on behind each part is the
//! sum of these up to the next start of a segment; and each part counts the runs of the segments that start in it, the last
//! one with what goes on behind the part, by [`part_run_counts`].
#![tactic(auto)]

pub mod counts;
mod heads;
pub mod lengths;
pub mod places;
pub mod puts;
mod walks;

pub use counts::{part_run_counts, part_run_fronts};
pub use lengths::part_run_lengths;
pub use places::run_places;
pub use puts::{put_run_lengths, put_run_starts};
