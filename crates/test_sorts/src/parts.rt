//! What a sort in parts makes between the steps of its parts: worked values, told by hand.

use cvl_base::{Fault, FaultNo};
use sort_parts::{cut_pieces, digit_passes, key_bits};

/// What two parts tell of their keys, and which passes there are.
struct Case {
    all: [i32; 2],
    any: [i32; 2],
    passes: usize,
}

const CASES: [Case; 5] = [
    // the keys 5 7 and 4 6
    Case {
        all: [5, 4],
        any: [7, 6],
        passes: 1,
    },
    // all keys are 5
    Case {
        all: [5, 5],
        any: [5, 5],
        passes: 1,
    },
    // 0 and 0, 2048
    Case {
        all: [0, 0],
        any: [0, 2048],
        passes: 2,
    },
    // -2147483648 and 0
    Case {
        all: [i32::MIN, 0],
        any: [i32::MIN, 0],
        passes: 4,
    },
    // 0, -1, and no key
    Case {
        all: [0, -1],
        any: [-1, 0],
        passes: 7,
    },
];

#[test]
fn passes_by_digits_that_differ(rt: HostRuntime) {
    for case in &CASES {
        assert!(rt; digit_passes(&case.all, &case.any) == Ok(case.passes));
    }
    let differ = Fault::new(FaultNo::LengthMismatch);
    assert!(rt; digit_passes(&[1], &[]) == Err(differ));
}

#[test]
fn finds_the_bits_of_keys(rt: HostRuntime) {
    assert!(rt; key_bits(&[5, 7]) == (5, 7));
    assert!(rt; key_bits(&[-1, 6, 4]) == (4, -1));
    assert!(rt; key_bits(&[]) == (-1, 0));
}

/// Two parts of two elements, with the digits 0, 1 and 1, 1.
fn two_parts() -> [u32; 4096] {
    let mut ends = [4; 4096];
    ends[0] = 1;
    for place in 1..2048 {
        ends[place] = 2;
    }
    ends[2048] = 2;
    ends
}

#[test]
fn cuts_behind_whole_pieces(rt: HostRuntime) {
    let ends = two_parts();
    let (mut pieces, mut places) = ([9; 3], [9; 3]);
    assert!(rt; cut_pieces(&[0, 2, 4], &ends, &mut pieces, &mut places) == Ok(()));
    assert!(rt; pieces == [0, 3, 4096]);
    assert!(rt; places == [0, 2, 4]);
}

#[test]
fn refuses_rooms_of_other_lengths(rt: HostRuntime) {
    let ends = two_parts();
    let (mut pieces, mut places) = ([9; 3], [9; 3]);
    let differ = Fault::new(FaultNo::LengthMismatch);
    assert!(rt; cut_pieces(&[0, 2], &ends, &mut pieces, &mut places) == Err(differ));
    assert!(rt; cut_pieces(&[0, 2, 4], &ends[1..], &mut pieces, &mut places) == Err(differ));
    assert!(rt; cut_pieces(&[0, 2, 4], &ends, &mut pieces[1..], &mut places) == Err(differ));
    assert!(rt; cut_pieces(&[0], &[], &mut pieces[2..], &mut places[2..]) == Err(differ));
    assert!(rt; pieces == [9; 3] && places == [9; 3]);
}
