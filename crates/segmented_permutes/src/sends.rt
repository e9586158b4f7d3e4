//! The permutes that send each element to a place of its segment: simple, select and default. They differ in which elements they
//! send, and in what the result holds before.

ghost use Rattle.std.specs.Prelude.{◌≡◌, ◌≤◌, IfOk, length, vec_len};
ghost use Rattle.cvl_base.specs.Gives.{Gives};
ghost use Rattle.cvl_base.specs.Limits.{most_elements};
ghost use Rattle.cvl_base.specs.SegmentedCalls.{seg_default_of, seg_select_of, seg_simple_of};

use crate::first_walk::{flagged_segment_senders, segment_senders};
use crate::one_walk::permuted_in_one;
use crew::Gate;
use cvl_base::{Config, Memory, Refused, check_agree, true_count};
use permute_walks::Before;
use permutes::elements_of_senders;
use segdes::{SegDes, check_total};
use segment_sends::{AllInSegments, FlaggedInSegments};
use std::thread::Threads;

/// The simple permute of each segment: `smp_pez` and `smp_peb`.
///
/// Source, index and result are as long as the segments together, else `LengthMismatch`, without a place. An index counts from
/// the start of its segment; one that is no place of it is `IndexOutOfRange`, and one that an earlier place of the segment
/// already has is `IndexRepeated` at the later place. The first bad place is reported, as a place of the whole index. Source:
/// CVL's segmented permute.
///
/// Workers who race, for the senders and then for the first bad place, pass `gate` at `Claimed` and `Finished` of each tile.
pub fn seg_simple<T: Copy + Send + Sync, R: Threads + Sync, A: Memory, G: Gate>(
    rt: &R,
    alloc: A,
    config: Config,
    source: &[T],
    index: &[i32],
    d: &SegDes<A>,
    gate: &G,
) -> Result<Vec<T, A>, Refused>
    requires in_limit { length index.now ≤ most_elements }
    ensures values { Gives (λ v. v.items) result (seg_simple_of source.now index.now d.now) }
    ensures in_length { IfOk result (λ v. vec_len v ≤ length index.now) }
{
    check_total(source, d)?;
    check_total(index, d)?;
    let segments = AllInSegments {
        index,
        d,
        result_d: d,
    };
    let before = Before::Any(source);
    let (in_one, way) = permuted_in_one(rt, alloc, config, source, &segments, before)?;
    if let Some(elements) = in_one {
        return Ok(elements);
    }
    let found = segment_senders(rt, alloc, way, index, d, d, source.len(), gate);
    elements_of_senders(rt, alloc, config, source, found, before)
}

/// The select permute of each segment: `sel_pez` and `sel_peb`.
///
/// Source, index and flags are as long as the segments together, else `LengthMismatch`, without a place. A segment of the result
/// has one place for each of its true flags. The faults are those of `seg_simple`, at places whose flag is true; no other index
/// is checked. Source: this library's profile of CVL's segmented select permute.
///
/// Workers who race, for the senders and then for the first bad place, pass `gate` at `Claimed` and `Finished` of each tile.
pub fn seg_select<T: Copy + Send + Sync, R: Threads + Sync, A: Memory, G: Gate>(
    rt: &R,
    alloc: A,
    config: Config,
    source: &[T],
    index: &[i32],
    flags: &[bool],
    d: &SegDes<A>,
    gate: &G,
) -> Result<Vec<T, A>, Refused>
    requires in_limit { length index.now ≤ most_elements }
    ensures values { Gives (λ v. v.items) result
        (seg_select_of source.now index.now flags.now d.now) }
    ensures in_length { IfOk result (λ v. vec_len v ≤ length index.now) }
{
    check_total(source, d)?;
    check_total(index, d)?;
    check_total(flags, d)?;
    let segments = FlaggedInSegments { index, flags, d };
    let places = true_count(flags);
    let (values, _) = source.split_at(places);
    let before = Before::Any(values);
    let (in_one, way) = permuted_in_one(rt, alloc, config, source, &segments, before)?;
    if let Some(elements) = in_one {
        return Ok(elements);
    }
    let found = flagged_segment_senders(rt, alloc, way, index, flags, d, places, gate);
    elements_of_senders(rt, alloc, config, source, found, before)
}

/// The default permute of each segment: `def_pez` and `def_peb`.
///
/// Source and index are as long as the segments of `source_d` together, the defaults as long as those of `default_d`, and both
/// descriptors have the same number of segments, else `LengthMismatch`, without a place. The result is as long as the defaults.
/// The faults are those of `seg_simple`, for an index into the segment of the defaults. Source: this library's profile of CVL's
/// segmented default permute.
///
/// Workers who race, for the senders and then for the first bad place, pass `gate` at `Claimed` and `Finished` of each tile.
pub fn seg_default_into<T: Copy + Send + Sync, R: Threads + Sync, A: Memory, G: Gate>(
    rt: &R,
    alloc: A,
    config: Config,
    source: &[T],
    index: &[i32],
    defaults: &[T],
    source_d: &SegDes<A>,
    default_d: &SegDes<A>,
    gate: &G,
) -> Result<Vec<T, A>, Refused>
    requires in_limit { length index.now ≤ most_elements }
    ensures values { Gives (λ v. v.items) result
        (seg_default_of source.now index.now defaults.now source_d.now default_d.now) }
    ensures as_long { IfOk result (λ v. vec_len v ≡ length defaults.now) }
{
    check_total(source, source_d)?;
    check_total(index, source_d)?;
    check_total(defaults, default_d)?;
    check_agree(source_d.count(), default_d.count())?;
    let segments = AllInSegments {
        index,
        d: source_d,
        result_d: default_d,
    };
    let places = defaults.len();
    let before = Before::Defaults(defaults);
    let (in_one, way) = permuted_in_one(rt, alloc, config, source, &segments, before)?;
    if let Some(elements) = in_one {
        return Ok(elements);
    }
    let found = segment_senders(rt, alloc, way, index, source_d, default_d, places, gate);
    elements_of_senders(rt, alloc, config, source, found, before)
}
