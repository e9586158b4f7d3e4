//! The walks of a permute over one range. The first, which finds the sender of each place of the result, is re-exported from
//! `sent_places`. `elements` has the second, which writes the elements of the senders over what `before` says of the places.
//! `owners` has both in one, by threads each of which owns a range of the result, with `ranges` for one range and `marks` for the
//! written places. `takes` has the walk of a back permute; `backs` has the two of one into a room, the first of which counts
//! indices by `index_counts`. `scatters` has those of a simple permute into a room.
#![tactic(auto)]

pub mod backs;
pub mod before;
pub mod elements;
mod index_counts;
pub mod marks;
mod owners;
mod ranges;
mod scatters;
pub mod takes;

pub use backs::{ElementsAt, check_places_alone, write_elements_at};
pub use before::Before;
pub use elements::{Elements, element_of};
pub use marks::{count_marks, words_for};
pub use owners::permuted_shared;
pub use ranges::write_range;
pub use scatters::{is_permutation, is_permutation_by, scatter_over};
pub use sent_places::{AllDestinations, Destinations, FlaggedDestinations, NOBODY, send_places};
pub use takes::{ByBlocks, ElementsTaken, OneByOne, PushAt, take_in_runs, take_nothing};
