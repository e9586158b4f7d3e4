//! Worked values of the library's calls: small vectors, and what the definition of each call gives for them.
//!
//! There is one function for each family of calls, for the scans and the reduces of integers a second one by segments, and for
//! the permutes one for each form and one for the bad places; nests have their own, and so has the form in which vectors are
//! written, and so have texts in parts, and where calls are cut. Besides there is how many threads share a call, what each of
//! them has, and which race there is. Each takes and gives nothing, and its contract is the list of values and faults. They are
//! computed from the definitions alone, so a misread definition is refused here, before any code depends on it.
#![tactic(auto, unfolding(core::specs::Int::int_wrap))]

pub mod byte_values;
pub mod checked_sums;
pub mod combined_sums;
pub mod combines;
pub mod descriptors;
pub mod distributes;
pub mod elementwise;
pub mod extracts;
pub mod key_orders;
pub mod nests;
pub mod packs;
pub mod part_places;
pub mod partitions;
pub mod permuted;
pub mod races;
pub mod reduces;
pub mod runs;
pub mod scans;
pub mod senders;
pub mod shares;
pub mod slices;
pub mod text_pieces;
pub mod transposed;
pub mod written;
