//! Kernels, on vectors of the caller's own.

use crew::OpenGate;
use cvl_base::{Config, IntBinary, IntMonoid, Memory, Refused};
use elementwise::int2;
use scan_ops::seg_int_reduce;
use segdes::SegDes;
use std::thread::Threads;

/// Two vectors in, their sum out.
pub fn sums<R: Threads + Sync, A: Memory>(
    rt: &R,
    alloc: A,
    config: Config,
) -> Result<Vec<i32, A>, Refused> {
    let a = [3, 1, 7, 0, 4];
    let b = [1, 1, 1, 1, 1];
    let add = IntBinary::Monoid(IntMonoid::Add);
    int2(rt, alloc, config, add, &a, &b, &OpenGate)
}

/// The sum of each row of a ragged table, whose rows are segments.
pub fn sums_of_segments<R: Threads + Sync, A: Memory>(
    rt: &R,
    alloc: A,
    config: Config,
) -> Result<Vec<i32, A>, Refused> {
    let rows = SegDes::from_lengths(alloc, &[0, 2, 0, 3, 0])?;
    seg_int_reduce(
        rt,
        alloc,
        config,
        IntMonoid::Add,
        &[5, 1, 7, 7, 1],
        &rows,
        &OpenGate,
    )
}
