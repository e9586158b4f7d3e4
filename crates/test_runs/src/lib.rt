//! Tests that cross crates: of the program on a host in memory that may fail, with its texts, messages and statuses; of files
//! that are read whole; of each request for memory refused in turn, over the program, sessions, the recipes and what no script
//! calls; of how much memory calls ask for, and of what takes none; and of the test allocator's counts.
//!
//! Whatever reaches a session or a kernel runs on one type of memory, the test allocator, and the program on one type of host,
//! since all that a type reaches is compiled anew for it. Scripts with their texts and faults are the cases of `script_cases`.
#![tactic(auto)]

#[cfg(test)]
mod allocator;
#[cfg(test)]
mod files;
#[cfg(test)]
mod held_workers;
#[cfg(test)]
mod memory_of_calls;
#[cfg(test)]
mod programs;
#[cfg(test)]
mod requests;
#[cfg(test)]
mod sessions;
#[cfg(test)]
mod shown;
