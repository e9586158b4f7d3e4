//! Elementwise calls: each element of the result is an operator on the elements at its place.
//!
//! `rayon` shares long vectors among as many threads as the machine has processors. A configuration's number of workers governs
//! only crews, so that these calls fork with one worker too. For quotients, remainders and shifts, the workers of a configuration
//! race for the first place without a value, and then write.
#![tactic(auto)]

mod choice;
mod copies;
mod elements_over;
mod in_place;
mod pairs;
mod races;
mod shared;
mod singles;
mod valueless;
mod values;

pub use choice::select;
pub use elements_over::{
    bool_from_int_over, compare_over, int1_over, int2_over, on_each_over, on_pairs_over,
};
pub use in_place::{
    int1_in, int2_in_both, int2_in_first, int2_in_second, on_each_in, on_pairs_in_both,
    on_pairs_in_first, on_pairs_in_second,
};
pub use pairs::{bool2, compare, int2};
pub use singles::{bool_from_int, bool1, int_from_bool, int1};
