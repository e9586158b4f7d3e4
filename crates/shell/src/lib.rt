//! The shell: the whole program, over the host that you give it, and the runs of scripts below it.
#![tactic(auto)]

pub mod endings;
mod explaining;
mod files;
pub mod host;
pub mod process;
mod process_words;
pub mod programs;
mod read_failures;
pub mod stream_host;
pub mod whole_files;

pub use command_line::{Words, WordsFault, read_words};
pub use explanations::explain;
pub use host::Host;
pub use process::{SystemFiles, run_process, run_words};
pub use programs::{program, program_gated};
pub use script_runs::{
    Gate, MemSink, OpenGate, Point, ReadFailure, Sink, SinkFault, Stop, mem_sink, put_stop, run,
    run_gated, runs, sink, stop,
};
pub use stream_host::{ReadFiles, StreamHost};
pub use whole_files::FileRoom;
