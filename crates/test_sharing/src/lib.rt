//! Tests of what threads share: the scan board and the least board, by hand, and the scan board by two threads of the test's own
//! beside a third worker; a list gathered from the pieces of a crew; the world of workers; and vectors that several threads
//! write, also one of two runs that wait for each other, which are pushed to, shrunk and cloned afterwards, and one that a thread
//! leaves early; partitions by a digit; orders, ranks and sorts; and scans of short segments. Whatever asks for memory is made
//! with each of its requests refused in turn.
#![tactic(auto)]

#[cfg(test)]
mod counter;
#[cfg(test)]
mod crews;
#[cfg(test)]
mod doubles;
#[cfg(test)]
mod lowered_places;
#[cfg(test)]
mod partitions;
#[cfg(test)]
mod requests;
#[cfg(test)]
mod scan_boards;
#[cfg(test)]
mod short_segments;
#[cfg(test)]
mod sorts;
#[cfg(test)]
mod tiles;
#[cfg(test)]
mod worlds;
