//! Explains, from the table of calls and the grammar of lines, a call or a line that has a fault.
#![tactic(auto)]

mod argument_counts;
mod bad_lines;
mod bad_numbers;
pub mod call_words;
pub mod known_words;
pub mod line_faults;
pub mod line_laws;
mod line_parts;
mod misplaced;
mod nearest_calls;
pub mod placed_tokens;
mod reasons;
pub mod shown;
mod unknown_calls;
pub mod wanted;
pub mod words;

pub use call_words::{CallWords, Spelling};
pub use known_words::{near, nearest};
pub use line_faults::put_line_fault;
pub use placed_tokens::{Token, token_at};
pub use shown::{Front, Shortened, Shown, first_bytes};
pub use words::{Counted, Line, Number, When, Words};
