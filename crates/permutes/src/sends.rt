//! The permutes that send each element to a place of the result: simple, select and default. They differ in which elements they
//! send, and in what the result holds before.

ghost use Rattle.std.specs.Prelude.{◌≡◌, ◌≤◌, IfOk, length, vec_len};
ghost use Rattle.cvl_base.specs.Gives.{Gives};
ghost use Rattle.cvl_base.specs.Limits.{most_elements};
ghost use Rattle.cvl_base.specs.Permutes.{default_of, select_of, simple_of};

use crate::one_or_two_walks::{all_permuted, permuted};
use crew::Gate;
use cvl_base::{Config, Memory, Refused, check_agree, true_count};
use permute_walks::{Before, FlaggedDestinations};
use std::thread::Threads;

/// Each element goes to its index, `d[i[k]] = s[k]`: `smp_puz` and `smp_pub`.
///
/// Source, index and result have the same length, else `LengthMismatch`, without a place. An index that is no place of the result
/// is `IndexOutOfRange` at its place, and one that an earlier place already has is `IndexRepeated` at the later place. The first
/// bad place is reported. Source: CVL's permute.
///
/// Workers who race, for the senders and then for the first bad place, pass `gate` at `Claimed` and `Finished` of each tile.
pub fn simple<T: Copy + Send + Sync, R: Threads + Sync, A: Memory, G: Gate>(
    rt: &R,
    alloc: A,
    config: Config,
    source: &[T],
    index: &[i32],
    gate: &G,
) -> Result<Vec<T, A>, Refused>
    requires in_limit { length index.now ≤ most_elements }
    ensures values { Gives (λ v. v.items) result (simple_of source.now index.now) }
    ensures as_long { IfOk result (λ v. vec_len v ≡ length index.now) }
{
    check_agree(source.len(), index.len())?;
    all_permuted(rt, alloc, config, source, index, Before::Any(source), gate)
}

/// Each element whose flag is true goes to its index: `sel_puz` and `sel_pub`.
///
/// Source, index and flags have the same length, else `LengthMismatch`, without a place; the result has one place for each true
/// flag. The faults are those of `simple`, at places whose flag is true; no other index is checked. Source: this library's
/// profile of CVL's select permute.
///
/// Workers who race, for the senders and then for the first bad place, pass `gate` at `Claimed` and `Finished` of each tile.
pub fn select<T: Copy + Send + Sync, R: Threads + Sync, A: Memory, G: Gate>(
    rt: &R,
    alloc: A,
    config: Config,
    source: &[T],
    index: &[i32],
    flags: &[bool],
    gate: &G,
) -> Result<Vec<T, A>, Refused>
    requires in_limit { length index.now ≤ most_elements }
    ensures values { Gives (λ v. v.items) result (select_of source.now index.now flags.now) }
    ensures in_length { IfOk result (λ v. vec_len v ≤ length index.now) }
{
    check_agree(source.len(), index.len())?;
    check_agree(index.len(), flags.len())?;
    let destinations = FlaggedDestinations { index, flags };
    let (values, _) = source.split_at(true_count(flags));
    let before = Before::Any(values);
    permuted(rt, alloc, config, source, &destinations, before, gate)
}

/// Each element goes to its index, and a place that gets none keeps its default: `def_puz` and `def_pub`.
///
/// Source and index have the same length, else `LengthMismatch`, without a place; the result is as long as the defaults. Faults
/// are those of `simple`. Source: this library's profile of CVL's default permute.
///
/// Workers who race, for the senders and then for the first bad place, pass `gate` at `Claimed` and `Finished` of each tile.
pub fn default_into<T: Copy + Send + Sync, R: Threads + Sync, A: Memory, G: Gate>(
    rt: &R,
    alloc: A,
    config: Config,
    source: &[T],
    index: &[i32],
    defaults: &[T],
    gate: &G,
) -> Result<Vec<T, A>, Refused>
    requires in_limit { length index.now ≤ most_elements }
    ensures values { Gives (λ v. v.items) result (default_of source.now index.now defaults.now) }
    ensures as_long { IfOk result (λ v. vec_len v ≡ length defaults.now) }
{
    check_agree(source.len(), index.len())?;
    all_permuted(
        rt,
        alloc,
        config,
        source,
        index,
        Before::Defaults(defaults),
        gate,
    )
}
