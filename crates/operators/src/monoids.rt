//! The monoids of scans and reduces: the operators on integers and on booleans that have a unit, and the exact sum.

mod booleans;
mod exact;
mod integers;

pub use booleans::{BoolAnd, BoolIor, BoolXor};
pub use exact::Exact;
pub use integers::{Add, And, Ior, Max, Min, Mul, Xor};
