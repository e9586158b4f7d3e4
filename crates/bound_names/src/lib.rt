//! The bound names: what is bound to each, and what the arguments of a call hold.
#![tactic(auto)]

pub mod arguments;
pub mod bound;
mod held;
pub mod names;
pub mod operands;
pub mod shared;

pub use arguments::resolve;
pub use bound::Bound;
// A crate can name a bound value in a contract only if the types of its fields are exported.
#[doc(hidden)]
pub use held::Held;
pub use names::{
    Names, bind_answer, bind_answers, bound_to, is_room, is_room_for_both, take_out, value_of,
};
pub use operands::{Operand, Operands};
pub use shared::SharedInts;
