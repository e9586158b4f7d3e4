//! What tests run and compare: the program on a host in memory, scripts at a gate that sees who passes, sessions by their calls,
//! calls that no script makes, and long texts. Each is generic over its memory, so that a test can refuse its requests.
#![tactic(auto)]

pub mod hosts;
pub mod kept_texts;
pub mod memory_of_calls;
pub mod other_calls;
pub mod programs;
pub mod scripts;
pub mod sessions;
