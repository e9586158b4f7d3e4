//! The bound names of a script and the calls on them.
#![tactic(auto)]

mod answers;
mod asked;
mod bound_answers;
mod calls;
mod elementwise_calls;
pub mod input;
mod input_texts;
mod kept;
pub mod long_writes;
mod numbered;
mod pack_calls;
mod pair_calls;
mod permute_calls;
mod place_calls;
mod read_bytes;
mod scan_calls;
pub mod session;
pub mod session_laws;
pub mod shown;
mod writes;

pub use input::Input;
// A crate can name a session in a contract only if the types of its fields are exported.
#[doc(hidden)]
pub use kept::{Content, KeptInput};
pub use long_writes::{LongWrite, WrittenText};
#[doc(hidden)]
pub use read_bytes::ReadBytes;
pub use session::Session;
pub use shown::Shown;
pub use value_texts::FlatVector;
