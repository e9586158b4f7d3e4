//! The calls for C, Rust, Python and others, as a static library: on the caller's own memory, on the calling thread.
//!
//! Each function checks whatever its caller may get wrong, so that no call with valid pointers and lengths is undefined. Its
//! status is 0, the number of a fault with its place, or 100 if memory ran out. No program sees their names: `bindings/c` calls
//! `cvl_proved_int2` from `cvl_int2`, which the header `include/cvl.h` declares. What they share is in `c_calls`.
#![tactic(auto)]

mod byte_widths;
mod checked_sums;
mod combine_ranges;
mod combine_sums;
mod combines;
mod cuts;
mod descriptors;
mod elements;
mod flags;
mod flags_in_place;
mod flat_permutes;
mod in_place;
mod matrices;
mod merges;
mod nested_texts;
mod packs;
mod part_checked_sums;
mod part_combines;
mod part_fills;
mod part_permutes;
mod part_reduces;
mod part_runs;
mod part_scans;
mod part_sorts;
mod part_texts;
mod parts;
mod place_by_place;
mod places_of_parts;
mod products;
mod records;
mod runs;
mod scans;
mod seg_scans;
mod segment_permutes;
mod segments;
mod senders;
mod slices;
mod sort_steps;
mod sorts;
mod text_exports;
mod tiles;
