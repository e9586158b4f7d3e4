//! Segmented packs: the elements of each segment whose flag is true.

ghost use Rattle.std.specs.Prelude.{◌≡◌, ◌≤◌, IfOk, Ok, length, sum, vec_len};
ghost use Rattle.cvl_base.specs.Gives.{Gives};
ghost use Rattle.cvl_base.specs.Limits.{most_elements};
ghost use Rattle.cvl_base.specs.Rooms.{OverwritesFront};
ghost use Rattle.cvl_base.specs.SegmentedCalls.{seg_count_of, seg_pack_of};

use crate::counts::seg_count;
use crate::packs::{kept, kept_over};
use crew::Gate;
use cvl_base::{Config, Fault, Lengths, Memory, Refused};
use segdes::{SegDes, SegLengths, check_total};
use std::thread::Threads;

/// The elements of each segment whose flag is true, in order, one segment after another: `pck_lez` and `pck_leb`. Workers pass a
/// gate at each point of their way through a tile of the flags.
///
/// `LengthMismatch`, without a place, if the segments' total is not the number of elements, or not that of flags. Source: CVL's
/// segmented pack.
pub fn seg_pack_values<T: Copy + Send + Sync, R: Threads + Sync, A: Memory, G: Gate>(
    rt: &R,
    alloc: A,
    config: Config,
    values: &[T],
    flags: &[bool],
    d: &SegDes<A>,
    gate: &G,
) -> Result<Vec<T, A>, Refused>
    ensures values { Gives (λ v. v.items) result (seg_pack_of values.now flags.now d.now) }
    ensures no_longer { IfOk result (λ v. vec_len v ≤ length values.now) }
{
    check_total(values, d)?;
    check_total(flags, d)?;
    Ok(kept(rt, alloc, config, values, flags, gate)?)
}

/// [`seg_pack_values`] to the front of the caller's room, on the calling thread. It takes no memory.
///
/// The count becomes the number of true flags. If the room is too short for that, the fault is `LengthMismatch`, without a place,
/// and the room is as before; otherwise the rest of the room is. After any other fault the count is as before, too.
pub fn seg_pack_values_over<T: Copy>(
    values: &[T],
    flags: &[bool],
    d: &SegLengths,
    out: &mut [T],
    count: &mut usize,
) -> Result<(), Fault>
    ensures { OverwritesFront (seg_pack_of values.now flags.now d.now) result out.old out.new count.old count.new }
{
    d.check_total(values)?;
    d.check_total(flags)?;
    kept_over(values, flags, out, count)
}

/// The descriptor of what a segmented pack keeps: `pck_fov`. An empty segment stays, with length 0. Workers pass a gate at each
/// point of their way through a tile of the flags.
///
/// `LengthMismatch`, without a place, if the segments' total is not the number of flags. Source: CVL's segmented pack.
pub fn packed_descriptor<R: Threads + Sync, A: Memory, G: Gate>(
    rt: &R,
    alloc: A,
    config: Config,
    flags: &[bool],
    d: &SegDes<A>,
    gate: &G,
) -> Result<SegDes<A>, Refused>
    requires few { length d.now ≤ most_elements }
    requires in_limit { sum d.now ≤ most_elements }
    ensures values { Gives (λ packed. packed) result (seg_count_of flags.now d.now) }
    ensures few { IfOk result (λ packed. length packed ≤ most_elements) }
    ensures in_limit { IfOk result (λ packed. sum packed ≤ most_elements) }
{
    let counts = seg_count(rt, alloc, config, flags, d, gate)?;
    Ok(SegDes::new(alloc, Lengths::from_vec(counts))?)
}

/// The elements of each segment whose flag is true, in order, one segment after another, and their descriptor: the values and
/// then the descriptor, by [`seg_pack_values`] and [`packed_descriptor`], with the same gate.
///
/// `LengthMismatch`, without a place, if the segments' total is not the number of elements, or not that of flags. Source: CVL's
/// segmented pack.
#[tactic(auto, using(crate::proofs::Segments::pack_fault))]
pub fn seg_pack<T: Copy + Send + Sync, R: Threads + Sync, A: Memory, G: Gate>(
    rt: &R,
    alloc: A,
    config: Config,
    values: &[T],
    flags: &[bool],
    d: &SegDes<A>,
    gate: &G,
) -> Result<(Vec<T, A>, SegDes<A>), Refused>
    requires few { length d.now ≤ most_elements }
    requires in_limit { sum d.now ≤ most_elements }
    ensures values { Gives (λ packed. packed.0.items) result
        (seg_pack_of values.now flags.now d.now) }
    ensures lengths { IfOk result (λ packed. seg_count_of flags.now d.now ≡ Ok packed.1) }
    ensures no_longer { IfOk result (λ packed. vec_len packed.0 ≤ length values.now) }
{
    let packed = seg_pack_values(rt, alloc, config, values, flags, d, gate)?;
    let lengths = packed_descriptor(rt, alloc, config, flags, d, gate)?;
    Ok((packed, lengths))
}
