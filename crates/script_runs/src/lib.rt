//! Runs of scripts: a script runs over its inputs line by line, and its text goes to a sink.
#![tactic(auto)]

pub mod lines;
mod long_texts;
pub mod mem_sink;
pub mod puts;
pub mod read_failure;
pub mod runs;
pub mod sink;
pub mod stop;
pub mod stop_lines;

pub use crew::{Gate, OpenGate, Point};
pub use lines::next_line;
pub use mem_sink::MemSink;
pub use puts::put_all;
pub use read_failure::ReadFailure;
pub use runs::{run, run_gated, run_lines};
pub use sink::{Sink, SinkFault};
pub use stop::{Stop, put_stop};
pub use stop_lines::stop_line;
