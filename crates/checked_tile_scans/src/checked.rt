//! Scans and reduces of integer vectors by sums that never wrap, flat and by segments: `Overflow` at the first result that does
//! not fit 32 bits.
//!
//! Workers race for the tiles of a long vector, whose sums are numbers of 54 bits and so are exact. They race again for the first
//! result of a scan that does not fit; only if there is none are the results written, each of 32 bits.
//!
//! The sum of a segment comes from the tile that holds its last element: from what stands before the tile, and the segment's
//! elements in the tile. If segments start about as often as threads need it, there is one tile and no race: each thread adds up
//! segments of its own, once.

ghost use Rattle.std.specs.Prelude.{◌≡◌, ◌≤◌, IfOk, length, vec_len};
ghost use Rattle.cvl_base.specs.CheckedSums.{checked_reduce_of, checked_scan_of, checked_seg_reduce_of, checked_seg_scan_of};
ghost use Rattle.cvl_base.specs.Gives.{Gives};
ghost use Rattle.cvl_base.specs.Limits.{most_elements};

use crate::segment_sums::sums_known;
use crate::summed_tile::summed_tile;
use crate::tile_totals::{Totals, race_for_totals};
use crate::tiled_scans::scan_or_overflow;
use crew::Gate;
use cvl_base::{Config, Fault, FaultNo, Memory, Refused};
use scan_walks::{
    checked_scan_vec, checked_seg_reduce_vec, checked_seg_scan_vec, checked_sum, fitting,
};
use segdes::{SegDes, check_total};
use std::mem::size_of_val;
use std::thread::Threads;
use tile_scans::{reduce_pace, scan_pace};

/// The exclusive scan by addition that never wraps: `tot_suz`.
///
/// The result is as long as the vector, which has at most 4,194,304 elements. `Overflow` at the first result that does not
/// fit 32 bits. Source: Blelloch's prescan, over whole numbers.
///
/// Workers race on two boards in turn: for what stands before each tile, where they pass `gate` at all four points, and for the
/// first tile with a result that does not fit, where they pass it at `Claimed` and `Finished`.
pub fn checked_scan<R: Threads + Sync, A: Memory, G: Gate>(
    rt: &R,
    alloc: A,
    config: Config,
    a: &[i32],
    gate: &G,
) -> Result<Vec<i32, A>, Refused>
    requires in_limit { length a.now ≤ most_elements }
    ensures values { Gives (λ sums. sums.items) result (checked_scan_of a.now) }
    ensures as_long { IfOk result (λ sums. vec_len sums ≡ length a.now) }
{
    let Some(pace) = scan_pace(config, a.len()) else {
        return checked_scan_vec(alloc, a);
    };
    let totals = Totals::<A>::new(a, None, pace.tile());
    scan_or_overflow(rt, alloc, pace, &totals, gate)
}

/// The sum of all elements, which never wraps: `tot_ruz`.
///
/// The vector has at most 4,194,304 elements. `Overflow` at 0 if the sum does not fit 32 bits; a partial sum that does not fit is
/// no fault. Source: CVL's reduces, over whole numbers.
///
/// Workers who race pass `gate` at each of the four points of a tile, on one board.
pub fn checked_reduce<R: Threads + Sync, A: Memory, G: Gate>(
    rt: &R,
    alloc: A,
    config: Config,
    a: &[i32],
    gate: &G,
) -> Result<i32, Refused>
    requires in_limit { length a.now ≤ most_elements }
    ensures { Gives (λ sum. sum) result (checked_reduce_of a.now) }
{
    let Some(pace) = reduce_pace(config, a.len(), size_of_val(a)) else {
        return Ok(checked_sum(a)?);
    };
    let totals = Totals::<A>::new(a, None, pace.tile());
    let before = race_for_totals(rt, alloc, pace, &totals, gate)?;
    let sum = totals.total_between(0, a.len(), &before);
    match fitting(&sum) {
        Some(sum) => Ok(sum),
        None => Err(Refused::Fault(Fault::at(FaultNo::Overflow, 0))),
    }
}

/// The exclusive scan of each segment by addition that never wraps: `tot_sez`.
///
/// The result is as long as the vector. `LengthMismatch`, without a place, if the segments' total is not the number of elements;
/// else `Overflow` at the first result that does not fit 32 bits, at its place in the vector. Source: CVL's segmented scans, over
/// whole numbers.
///
/// Workers who race pass `gate` on the two boards of [`checked_scan`].
pub fn checked_seg_scan<R: Threads + Sync, A: Memory, G: Gate>(
    rt: &R,
    alloc: A,
    config: Config,
    a: &[i32],
    d: &SegDes<A>,
    gate: &G,
) -> Result<Vec<i32, A>, Refused>
    ensures values { Gives (λ sums. sums.items) result (checked_seg_scan_of a.now d.now) }
    ensures as_long { IfOk result (λ sums. vec_len sums ≡ length a.now) }
{
    check_total(a, d)?;
    let Some(pace) = scan_pace(config, a.len()) else {
        return checked_seg_scan_vec(alloc, a, d);
    };
    let totals = Totals::new(a, Some(d), pace.tile());
    scan_or_overflow(rt, alloc, pace, &totals, gate)
}

/// The sum of each segment, which never wraps: `tot_rez`.
///
/// The result has one element for each segment. `LengthMismatch`, without a place, if the segments' total is not the number of
/// elements; else `Overflow` at the first segment whose sum does not fit 32 bits. Source: CVL's segmented reduces, over whole
/// numbers.
///
/// Workers who race pass `gate` at each of the four points of a tile, on one board. If each thread has whole segments, as only in
/// long tiles, there is no race, and nobody passes it.
pub fn checked_seg_reduce<R: Threads + Sync, A: Memory, G: Gate>(
    rt: &R,
    alloc: A,
    config: Config,
    a: &[i32],
    d: &SegDes<A>,
    gate: &G,
) -> Result<Vec<i32, A>, Refused>
    ensures values { Gives (λ sums. sums.items) result (checked_seg_reduce_of a.now d.now) }
    ensures one_each { IfOk result (λ sums. vec_len sums ≡ length d.now) }
{
    check_total(a, d)?;
    let Some(pace) = reduce_pace(config, a.len(), size_of_val(a)) else {
        return checked_seg_reduce_vec(alloc, a, &d.as_lengths());
    };
    let totals = Totals::new(a, Some(d), summed_tile(pace, d));
    let before = race_for_totals(rt, alloc, pace, &totals, gate)?;
    let threads = pace.threads_writing(a.len().max(d.count()));
    sums_known(rt, alloc, threads, &totals, d, &before)
}
