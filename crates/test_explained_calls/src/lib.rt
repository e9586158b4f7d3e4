//! Tests of the words for calls and for lines with a fault: texts worked out by hand, and each request for memory refused in
//! turn.
#![tactic(auto)]

#[cfg(test)]
mod cases;
#[cfg(test)]
mod told;
