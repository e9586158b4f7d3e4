//! Status words and the world of workers: what is known of a tile's sums, packed into one word of 64 bits, and how the workers of
//! a single-pass scan act on such words, step by step.
#![tactic(auto)]

mod action;
mod items;
mod local;
mod moves;
mod pass;
mod rules;
mod status;
mod word;
mod word_laws;
mod world;

pub use action::{Action, Answer};
pub use items::{pack_status, read_status};
pub use local::{Local, next};
pub use pass::{Hand, Mark, Pass};
pub use rules::{code_law, hand_law, pass_values, rule_law};
pub use status::Status;
pub use word::{pack, unpack};
pub use word_laws::{left_law, word_law, word_values, world_law, world_values};
pub use world::{Stepped, World};
