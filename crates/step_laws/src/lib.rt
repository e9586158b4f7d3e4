//! Laws of calls in parts, as the steps that `bindings/c/steps.c` runs, each a function that takes and gives nothing and whose
//! contract is the law: if each part of each step was run once, in any order within a step, and each step after the one before,
//! then the room and what is told are the call's. A step is what its export is proved to do.
#![tactic(auto)]

pub mod checked_seg_reduces;
pub mod checked_seg_scans;
pub mod checked_sums;
pub mod combines;
pub mod counts;
pub mod cuts;
pub mod descriptors;
pub mod fills;
pub mod flat_permutes;
pub mod matrices;
pub mod merges;
pub mod packs;
pub mod places;
pub mod runs;
pub mod scans;
pub mod seg_fills;
pub mod seg_reduces;
pub mod seg_scans;
pub mod segment_families;
pub mod segments;
pub mod senders;
pub mod sorts;
pub mod texts;
