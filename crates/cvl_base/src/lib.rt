//! What every layer of the vector library uses: numbers, operators, monoids, faults, values and calls.
//!
//! Numbers, operators and monoids are in the crate `operators`, and the table of calls in `call_table`; both are re-exported here
//! under their names.
#![tactic(auto)]

pub mod by_operator;
pub mod call;
pub mod checks;
pub mod config;
pub mod elements;
pub mod fault;
pub mod flags;
pub mod lengths;
pub mod limits;
pub mod memory;
pub mod name;
pub mod partials;
pub mod places;
pub mod refused;
pub mod value;

pub use call::{Arg, Args, Call, ResultNames};
pub use call_table::{
    BoolBinary, Comparison, Cut, Element, Family, Form, IntBinary, IntMonoid, Kind, Label, Op,
    Unary, families, kind, labels, named_calls, numbered, op_of, operation, spelling,
};
pub use checks::check_agree;
pub use config::{BadConfig, Config};
pub use elements::{Bools, Elements, Ints};
pub use fault::{Fault, FaultNo};
pub use flags::true_count;
pub use lengths::Lengths;
pub use memory::Memory;
pub use name::Name;
pub use operators::{
    Binary, Monoid, Packed, Seg, Single, comparisons, folds, integer, monoid, monoids, operator,
    operator_laws, seg, sides, singles, tile_sums,
};
pub use partials::PartialBinary;
pub use places::place_among;
pub use refused::{NoResources, Refused};
pub use value::Value;
