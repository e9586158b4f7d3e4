//! Worked values, told by hand.

use segdes::SegLengths;
use stable_sorts::{
    order_over, rank_over, seg_order_over, seg_rank_over, seg_sort_in, seg_sort_over, sort_in,
    sort_over,
};
use std::test::Fail;

/// Keys, and their results.
struct Case {
    keys: [i32; 5],
    order: [i32; 5],
    rank: [i32; 5],
    sorted: [i32; 5],
}

const CASES: [Case; 3] = [
    Case {
        keys: [3, 1, 2, 1, 0],
        order: [4, 1, 3, 2, 0],
        rank: [4, 1, 3, 2, 0],
        sorted: [0, 1, 1, 2, 3],
    },
    Case {
        keys: [0, -1, 5, i32::MIN, i32::MAX],
        order: [3, 1, 0, 2, 4],
        rank: [2, 1, 3, 0, 4],
        sorted: [i32::MIN, -1, 0, 5, i32::MAX],
    },
    Case {
        keys: [7, 7, -7, 7, -7],
        order: [2, 4, 0, 1, 3],
        rank: [2, 3, 0, 4, 1],
        sorted: [-7, -7, 7, 7, 7],
    },
];

#[test]
fn told_of_keys(rt: HostRuntime) -> Result<(), Fail> {
    let alloc = rt.alloc();
    for case in &CASES {
        let mut out = [9; 5];
        order_over(alloc, &case.keys, &mut out)?;
        assert_eq!(rt; out, case.order);
        rank_over(alloc, &case.keys, &mut out)?;
        assert_eq!(rt; out, case.rank);
        sort_over(alloc, &case.keys, &mut out)?;
        assert_eq!(rt; out, case.sorted);
        let mut keys = case.keys;
        sort_in(alloc, &mut keys)?;
        assert_eq!(rt; keys, case.sorted);
        assert!(rt; order_over(alloc, &case.keys, &mut out[..4]).is_err());
        assert_eq!(rt;
            out,
            case.sorted,
            "a room that is too short stays as it was"
        );
    }
    Ok(())
}

#[test]
fn told_by_segments(rt: HostRuntime) -> Result<(), Fail> {
    let alloc = rt.alloc();
    let lengths = [2, 0, 3];
    let d = SegLengths::of(&lengths)?;
    let keys = [3, 1, 2, 1, 1];
    let mut out = [9; 5];
    seg_order_over(alloc, &keys, &d, &mut out)?;
    assert_eq!(rt; out, [1, 0, 1, 2, 0]);
    seg_rank_over(alloc, &keys, &d, &mut out)?;
    assert_eq!(rt; out, [1, 0, 2, 0, 1]);
    seg_sort_over(alloc, &keys, &d, &mut out)?;
    assert_eq!(rt; out, [1, 3, 1, 1, 2]);
    let mut sorted = keys;
    seg_sort_in(alloc, &mut sorted, &d)?;
    assert_eq!(rt; sorted, [1, 3, 1, 1, 2]);
    assert!(rt; seg_sort_in(alloc, &mut sorted[..4], &d).is_err());
    Ok(())
}
