//! Scans and reduces of a segmented vector in parts, which are cut at any places: a segment may begin in one part and go on in
//! others.
//!
//! For a scan each part tells what its elements since its last start of a segment join to; [`seg_carries`] puts together what
//! stands before each part; and each part scans its elements after that, by [`part_scan_over`] or [`part_scan_in`]. The module
//! [`calls`] has them by the numbers of operators.
//!
//! For a reduce each part tells what its elements before its first start of a segment join to; [`seg_behinds`] puts together what
//! goes on behind each part; and each part reduces the segments that start in it, the last one with what goes on behind the part,
//! by [`part_reduces_over`]. The module [`reduce_calls`] has them by the numbers of operators.
//!
//! Checked sums go the same way over whole numbers: [`long_carries`] and [`long_behinds`] put together in 64 bits what the parts
//! tell, and [`checked_part_scan_over`] and [`checked_part_reduces_over`] look at all sums of a part before they write.
#![tactic(auto)]

pub mod behinds;
pub mod calls;
pub mod carries;
pub mod checked_reduces;
pub mod checked_scans;
pub mod longs;
pub mod parts;
mod readings;
pub mod reduce_calls;
pub mod reduces;

pub use behinds::seg_behinds;
pub use carries::seg_carries;
pub use checked_reduces::{checked_part_reduces_over, part_checked_reduce};
pub use checked_scans::{checked_part_scan_over, part_checked_scan};
pub use longs::{long_behinds, long_carries};
pub use parts::{part_scan_in, part_scan_over};
pub use reduces::{is_part, part_reduces_over};
