//! Laws of calls that only programs make, on vectors that come in parts, each a function that takes and gives nothing and whose
//! contract is the law.
#![tactic(auto)]

pub mod matrices;
pub mod merges;
pub mod slices;
