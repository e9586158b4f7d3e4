//! Scans of more segments than are marked at once, some of them empty, one with more elements than a group of marks has.

use cvl_base::monoids::Add;
use scan_walks::seg_scan_over;
use segdes::SegLengths;
use std::test::Fail;

/// How many segments there are; a walk by marks takes 128 at a time.
const SEGMENTS: usize = 700;

/// The segment that is longer than the 1,024 elements that are marked at once.
const LONG: usize = 300;

/// How many elements segment s has: 0 to 6 in no order, and once 1,100.
fn length_of(s: usize) -> i32 {
    if s == LONG {
        return 1_100;
    }
    (s.wrapping_mul(5) % 7) as i32
}

/// Whether each element has the number of those before it in its segment.
fn are_counted(scan: &[i32], lengths: &[i32]) -> bool {
    let mut place = 0usize;
    for length in lengths {
        for before in 0..*length {
            if scan.get(place) != Some(&before) {
                return false;
            }
            place = place.wrapping_add(1);
        }
    }
    place == scan.len()
}

#[test]
fn scans_by_marks(rt: HostRuntime) -> Result<(), Fail> {
    let mut lengths = vec![in rt.alloc(); 0; SEGMENTS]?;
    let mut total = 0usize;
    for s in 0..lengths.len() {
        lengths[s] = length_of(s);
        total = total.wrapping_add(length_of(s).cast_unsigned() as usize);
    }
    let ones = vec![in rt.alloc(); 1; total]?;
    let mut scan = vec![in rt.alloc(); -1; total]?;
    let checked = SegLengths::of(&lengths)?;
    seg_scan_over::<Add>(&ones, &checked, &mut scan)?;
    assert!(rt; are_counted(&scan, &lengths));
    Ok(())
}
