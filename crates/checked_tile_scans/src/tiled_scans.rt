//! Checked scans in tiles, written once all results are known to fit 32 bits.

ghost use Rattle.std.specs.Prelude.{◌≡◌, IfOk, length, map, vec_len};
ghost use Rattle.std.specs.Option.{option_copied};
ghost use Rattle.cvl_base.specs.CheckedSums.{fitting};
ghost use Rattle.cvl_base.specs.declared.fault.FaultNo.TheVariants as no;
ghost use Rattle.cvl_base.specs.Elementwise.{values_from};
ghost use Rattle.cvl_base.specs.Gives.{Gives};
ghost use Rattle.cvl_base.specs.Integers.{wrap};
ghost use Rattle.tile_scans.specs.TiledSums.{flagged};
ghost use Rattle.checked_tile_scans.specs.Checked.{total_scan};

use crate::overflows::first_overflow;
use crate::tile_totals::{Totals, race_for_totals};
use crew::Gate;
use cvl_base::monoids::Add;
use cvl_base::{Fault, FaultNo, Memory, NoResources, Packed, Refused};
use scan_walks::know_numbers;
use sharing::Pace;
use std::alloc::Allocator;
use std::thread::Threads;
use tile_scans::scan_after_befores;

/// The numbers, wrapped to 32 bits.
fn wrapped<A: Allocator>(alloc: A, numbers: &[i64]) -> Result<Vec<i32, A>, NoResources>
    ensures { IfOk result (λ all. all.items ≡ map wrap numbers.now) }
{
    Ok(numbers.iter().map(|z| Add::from_word(*z)).collect(alloc)?)
}

/// The checked scan of a vector in tiles of the pace's length. It is written once all results are known to fit 32 bits:
/// `Overflow` at the first that does not. The workers pass the gate on two boards, first the scan's and then the least tile's.
pub(crate) fn scan_or_overflow<R: Threads + Sync, A: Memory, G: Gate>(
    rt: &R,
    alloc: A,
    pace: Pace,
    vector: &Totals<A>,
    gate: &G,
) -> Result<Vec<i32, A>, Refused>
    requires { vector.now.plan.tile ≡ pace.tile }
    ensures values { Gives (λ sums. sums.items) result (values_from no.Overflow 0 (map fitting
        (total_scan (flagged (option_copied vector.now.segments) vector.now.elements.now)))) }
    ensures as_long { IfOk result (λ sums. vec_len sums ≡ length vector.now.elements.now) }
{
    let before = {
        let totals = race_for_totals(rt, alloc, pace, vector, gate)?;
        if let Some(place) = first_overflow(rt, alloc, pace, vector, &totals, gate)? {
            return Err(Refused::Fault(Fault::at(FaultNo::Overflow, place)));
        }
        wrapped(alloc, &totals)?
    };
    let (a, segments) = (vector.elements, vector.segments);
    know_numbers(a);
    let sums = scan_after_befores::<R, A, Add>(rt, alloc, pace, a, segments, &before)?;
    Ok(sums)
}
