//! A flat permute on one thread that keeps no sender. Into a room it has two walks: `marks` finds out, with a bit a place, if any
//! place is bad, and `scatters` then writes each element to its place. `leaps` finds out whether an index runs along, so that
//! other walks are faster. A fresh vector, which a bad place leaves to nobody, is made in one walk by `one_walk`.
#![tactic(auto)]

mod leaps;
mod marks;
mod one_walk;
mod scatters;

pub use leaps::jumps;
pub use marks::is_scattered;
pub use one_walk::permuted_at_once;
pub use scatters::scatter;
