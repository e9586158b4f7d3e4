//! The calls on flags that come as bytes, as a C program has them: any byte but 0 is true, and results are 0 or 1. They run on
//! the calling thread, and take no memory.
#![tactic(auto)]

mod bools;
mod choice;
mod counts;
mod flags;
mod reduces;
mod replaces;

pub use bools::{
    bool1_in, bool1_over, bool2_in_both, bool2_in_first, bool2_in_second, bool2_over,
    int_from_bool_over,
};
pub use choice::{
    select_flags_in_first, select_flags_in_second, select_flags_over, select_in_first,
    select_in_second, select_over,
};
pub use counts::{count, seg_count_over};
pub use flags::{are_flags, flag_of, make_flags};
pub use reduces::{bool_reduce, seg_bool_reduce_over};
pub use replaces::replace_over;
