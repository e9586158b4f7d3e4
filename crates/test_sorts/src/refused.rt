//! Each request for memory is refused in turn: the room is then as before.

use cvl_base::{Memory, NoResources};
use refusing_memory::withstands_refusals;
use segdes::SegLengths;
use stable_sorts::{order_over, seg_rank_over, sort_in};
use std::test::Fail;

/// What the rooms hold before.
const BEFORE: i32 = -7;

/// How many keys there are, which all differ and descend: more than are sorted without memory.
const KEYS: usize = 110;

/// The lengths of the segments. The first has more keys than are sorted without memory.
const LENGTHS: [i32; 2] = [100, 10];

/// Whether the first number is as said, and each other one so much more than the one before.
fn go_from(numbers: &[i32], first: i32, step: i32) -> bool {
    let mut expected = first;
    for number in numbers {
        if *number != expected {
            return false;
        }
        expected = expected.wrapping_add(step);
    }
    true
}

/// Whether these are the ranks of keys that descend, in segments of 100 and 10.
fn are_ranks(ranks: &[i32]) -> bool {
    let mut expected = 99;
    for rank in ranks {
        if *rank != expected {
            return false;
        }
        expected = if expected == 0 {
            9
        } else {
            expected.wrapping_sub(1)
        };
    }
    true
}

/// No memory if what was asked for left all as it was, and else a wrong answer.
fn refused(as_before: bool) -> Result<bool, NoResources> {
    if as_before {
        Err(NoResources)
    } else {
        Ok(false)
    }
}

/// Whether the room holds nothing but what it held before.
fn is_as_before(room: &[i32]) -> bool {
    for number in room {
        if *number != BEFORE {
            return false;
        }
    }
    true
}

/// Whether the order of keys that descend is right.
fn is_ordered<A: Memory>(alloc: A, keys: &[i32; KEYS]) -> Result<bool, NoResources> {
    let mut out = [BEFORE; KEYS];
    if order_over(alloc, keys, &mut out).is_err() {
        return refused(is_as_before(&out));
    }
    Ok(go_from(&out, 109, -1))
}

/// Whether their ranks by segments are right.
fn are_ranked<A: Memory>(alloc: A, keys: &[i32; KEYS]) -> Result<bool, NoResources> {
    let Ok(d) = SegLengths::of(&LENGTHS) else {
        return Ok(false);
    };
    let mut out = [BEFORE; KEYS];
    if seg_rank_over(alloc, keys, &d, &mut out).is_err() {
        return refused(is_as_before(&out));
    }
    Ok(are_ranks(&out))
}

/// Whether their sort is right.
fn are_sorted<A: Memory>(alloc: A, keys: &[i32; KEYS]) -> Result<bool, NoResources> {
    let mut sorted = *keys;
    if sort_in(alloc, &mut sorted).is_err() {
        return refused(go_from(&sorted, 0, -1));
    }
    Ok(go_from(&sorted, -109, 1))
}

/// Whether all are right for the keys 0, -1, -2 and so on.
fn are_right<A: Memory>(alloc: A) -> Result<bool, NoResources> {
    let mut keys = [0i32; KEYS];
    for k in 0..KEYS {
        keys[k] = 0i32.wrapping_sub(k as i32);
    }
    Ok(is_ordered(alloc, &keys)? && are_ranked(alloc, &keys)? && are_sorted(alloc, &keys)?)
}

#[test]
fn refused_in_turn(rt: HostRuntime) -> Result<(), Fail> {
    let requests = withstands_refusals(
        rt.alloc(),
        |heap| are_right(heap),
        Ok(true),
        Err(NoResources),
    )?;
    assert!(rt; requests >= 8, "{requests}");
    Ok(())
}
