//! Tests of orders, ranks and sorts: worked values, and each request for memory refused in turn. `test_sharing` has keys of each
//! length at which a sort changes its way.
#![tactic(auto)]

#[cfg(test)]
mod parts;
#[cfg(test)]
mod refused;
#[cfg(test)]
mod worked;
