//! What the exports of the static library `cvl_c` share: checks of whatever a caller may get wrong, operators by their numbers,
//! and the answers to a caller; and calls on a caller's own memory that are generic over a monoid, or that Rattle itself makes.
//! An export cites the definition that its call here cites, and answers by two numbers.
//!
//! Each call reports the first fault, in this order: `UnknownCall` if no operator has the number; the faults of its lengths, as
//! [`checks::segments`] has them; `TooLong` if its first vector (a permute's index, a product's columns, a pack's flags) has more
//! than 2,147,483,647 elements; its own faults; and `LengthMismatch`, without a place, if the result does not fit the room. After
//! a fault the room is as before.
#![tactic(auto)]

pub mod checked_sums;
pub mod checks;
pub mod descriptors;
pub mod elements;
pub mod flat_permutes;
pub mod in_place;
pub mod numbers;
pub mod packs;
pub mod place_by_place;
pub mod products;
pub mod scans;
pub mod seg_scans;
pub mod status;
pub mod text_calls;
pub mod tiles;
pub mod told_nest;
