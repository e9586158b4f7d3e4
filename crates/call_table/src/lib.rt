//! The table of calls: the families of calls and their operators, the name of each call, the kinds of its arguments, in order,
//! and the kinds of what it gives.
#![tactic(auto)]

pub mod families;
pub mod kind;
pub mod labels;
pub mod named_calls;
mod operands;
pub mod operation;
pub mod spelling;
mod table;

pub use families::{BoolBinary, Comparison, Cut, Element, Form, IntBinary, IntMonoid, Unary};
pub use kind::Kind;
pub use labels::{Family, Label, know_labels, numbered};
pub use named_calls::op_of;
pub use operation::Op;
