//! The scans and reduces of boolean vectors, by the operators of the table.

ghost use Rattle.std.specs.Prelude.{◌≡◌, IfOk, length, vec_len};
ghost use Rattle.cvl_base.specs.Gives.{Gives};
ghost use Rattle.cvl_base.specs.Scans.{bool_join_of, bool_reduce_of, bool_scan_of, bool_unit_of};
ghost use Rattle.cvl_base.specs.SegmentedCalls.{seg_reduce_of, seg_scan_of};

use crew::Gate;
use cvl_base::{BoolBinary, Config, Memory, NoResources, Refused, by_bool_binary};
use segdes::SegDes;
use std::thread::Threads;
use tile_scans::{reduce, scan, seg_reduce, seg_scan};

/// The exclusive scan by an operator of the table: `and_sub` and its like.
///
/// The result is as long as the vector. Source: CVL's scans.
///
/// Workers who race pass `gate` at each point of their way through a tile.
pub fn bool_scan<R: Threads + Sync, A: Memory, G: Gate>(
    rt: &R,
    alloc: A,
    config: Config,
    op: BoolBinary,
    a: &[bool],
    gate: &G,
) -> Result<Vec<bool, A>, NoResources>
    ensures values { IfOk result (λ sums. sums.items ≡ bool_scan_of op a.now) }
    ensures as_long { IfOk result (λ sums. vec_len sums ≡ length a.now) }
{
    by_bool_binary!(op, scan::<R, A, _, G>(rt, alloc, config, a, gate))
}

/// The elements joined by an operator of the table, and its identity where there are none.
///
/// Source: CVL's reduces.
///
/// Workers who race pass `gate` at each point of their way through a tile.
pub fn bool_reduce<R: Threads + Sync, A: Memory, G: Gate>(
    rt: &R,
    alloc: A,
    config: Config,
    op: BoolBinary,
    a: &[bool],
    gate: &G,
) -> Result<bool, NoResources>
    ensures { IfOk result (λ sum. sum ≡ bool_reduce_of op a.now) }
{
    by_bool_binary!(op, reduce::<R, A, _, G>(rt, alloc, config, a, gate))
}

/// The exclusive scan of each segment by an operator of the table.
///
/// The result is as long as the vector. LengthMismatch, without a place, where the segments' total is not the number of
/// elements. Source: CVL's segmented scans.
///
/// Workers who race pass `gate` at each point of their way through a tile.
pub fn seg_bool_scan<R: Threads + Sync, A: Memory, G: Gate>(
    rt: &R,
    alloc: A,
    config: Config,
    op: BoolBinary,
    a: &[bool],
    d: &SegDes<A>,
    gate: &G,
) -> Result<Vec<bool, A>, Refused>
    ensures values { Gives (λ sums. sums.items) result
        (seg_scan_of (bool_join_of op) (bool_unit_of op) a.now d.now) }
    ensures as_long { IfOk result (λ sums. vec_len sums ≡ length a.now) }
{
    by_bool_binary!(op, seg_scan::<R, A, _, G>(rt, alloc, config, a, d, gate))
}

/// For each segment its elements joined by an operator of the table, and the operator's identity where it is empty.
///
/// The result has one element for each segment. LengthMismatch, without a place, where the segments' total is not the
/// number of elements. Source: CVL's segmented reduces.
///
/// Workers who race pass `gate` at each point of their way through a tile.
pub fn seg_bool_reduce<R: Threads + Sync, A: Memory, G: Gate>(
    rt: &R,
    alloc: A,
    config: Config,
    op: BoolBinary,
    a: &[bool],
    d: &SegDes<A>,
    gate: &G,
) -> Result<Vec<bool, A>, Refused>
    ensures values { Gives (λ sums. sums.items) result
        (seg_reduce_of (bool_join_of op) (bool_unit_of op) a.now d.now) }
    ensures one_each { IfOk result (λ sums. vec_len sums ≡ length d.now) }
{
    by_bool_binary!(op, seg_reduce::<R, A, _, G>(rt, alloc, config, a, d, gate))
}
