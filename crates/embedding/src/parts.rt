//! A call in parts, each of which a thread of one's own may make.

use cvl_base::{Memory, Refused};
use part_calls::carries::{checked_scan_from, exact_sum};

/// The sums of the numbers before each number, in two parts: those of the second one go on from what the first one adds up to.
pub fn scan_in_parts<A: Memory>(
    alloc: A,
    first: &[i32],
    second: &[i32],
) -> Result<Vec<i32, A>, Refused> {
    let mut sums = vec![in alloc; 0; first.len()]?;
    checked_scan_from(&0, first, &mut sums)?;
    let mut rest = vec![in alloc; 0; second.len()]?;
    checked_scan_from(&exact_sum(first)?, second, &mut rest)?;
    sums.extend_from_slice(&rest)?;
    Ok(sums)
}
