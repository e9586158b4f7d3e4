//! Writers of vectors place by place: by an operator on one element or on two, which may have no value on some pairs, by a
//! choice, and by copying.
#![tactic(auto)]

pub mod choice;
pub mod copies;
pub mod on_each;
pub mod on_pairs;
pub mod or_zero;

pub use choice::{Chosen, Same, choose};
pub use copies::Copied;
pub use on_each::OnEach;
pub use on_pairs::OnPairs;
pub use or_zero::OrZero;
