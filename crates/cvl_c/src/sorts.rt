//! Order, rank and sort of keys, and sort by key, of a whole vector and of each segment.

ghost use Rattle.std.specs.Prelude.{List, Ok, Result, map, pos, ℤ};
ghost use Rattle.c_calls.specs.Calls.{by_segments, in_limit};
ghost use Rattle.c_calls.specs.Told.{ToldOr};
ghost use Rattle.cvl_base.specs.declared.fault.Fault.{Fault};
ghost use Rattle.orders.specs.Orders.{order_of, rank_of, seg_order_of, seg_rank_of, seg_sorted_of, sorted_of};
ghost use Rattle.orders.specs.SortsByKey.{ascending, descending, seg_sort_by_key_of, sort_by_key_of};
ghost use Rattle.stable_sorts.specs.Both.{ReplacesOr, both};
ghost use Rattle.cvl_c.specs.Keys.{by_keys};

use c_calls::checks::{check_limit, segments};
use c_calls::or_tell;
use c_calls::status::{CvlStatus, done, status_of, told_over_or};
use cvl_base::Refused;
use stable_sorts::{
    Ascending, Descending, order_over, rank_over, seg_order_over, seg_rank_over,
    seg_sort_by_key_in, seg_sort_in, seg_sort_over, sort_by_key_in, sort_in, sort_over,
};
use std::alloc::Global;

/// The places in ascending order of their keys, equal keys in the order of their places.
#[unsafe(no_mangle)]
pub extern "C" fn cvl_proved_order(alloc: Global, keys: &[i32], out: &mut [i32]) -> CvlStatus
    ensures { ToldOr (by_keys keys.now out.old (Ok (map pos (order_of keys.now)))) result out.old out.new }
{
    or_tell!(check_limit(keys));
    told_over_or::<i32>(order_over(alloc, keys, out))
}

/// At each place how many keys stand before its key in that order.
#[unsafe(no_mangle)]
pub extern "C" fn cvl_proved_rank(alloc: Global, keys: &[i32], out: &mut [i32]) -> CvlStatus
    ensures { ToldOr (by_keys keys.now out.old (Ok (map pos (rank_of keys.now)))) result out.old out.new }
{
    or_tell!(check_limit(keys));
    told_over_or::<i32>(rank_over(alloc, keys, out))
}

/// The keys in ascending order.
#[unsafe(no_mangle)]
pub extern "C" fn cvl_proved_sort(alloc: Global, keys: &[i32], out: &mut [i32]) -> CvlStatus
    ensures { ToldOr (by_keys keys.now out.old (Ok (sorted_of keys.now))) result out.old out.new }
{
    or_tell!(check_limit(keys));
    told_over_or::<i32>(sort_over(alloc, keys, out))
}

/// `cvl_proved_sort` over `keys`.
#[unsafe(no_mangle)]
pub extern "C" fn cvl_proved_sort_in(alloc: Global, keys: &mut [i32]) -> CvlStatus
    ensures { ToldOr (in_limit keys.old (Ok (sorted_of keys.old))) result keys.old keys.new }
{
    or_tell!(check_limit(keys));
    or_tell!(sort_in(alloc, keys));
    done()
}

/// The order of the keys of each segment. Places count from the start of the segment.
#[unsafe(no_mangle)]
pub extern "C" fn cvl_proved_seg_order(
    alloc: Global,
    keys: &[i32],
    lengths: &[i32],
    out: &mut [i32],
) -> CvlStatus
    ensures { ToldOr (by_segments lengths.now (λ d. by_keys keys.now out.old (seg_order_of keys.now d))) result out.old out.new }
{
    let d = or_tell!(segments(lengths));
    or_tell!(check_limit(keys));
    told_over_or::<i32>(seg_order_over(alloc, keys, &d, out))
}

/// The rank of each key in its segment.
#[unsafe(no_mangle)]
pub extern "C" fn cvl_proved_seg_rank(
    alloc: Global,
    keys: &[i32],
    lengths: &[i32],
    out: &mut [i32],
) -> CvlStatus
    ensures { ToldOr (by_segments lengths.now (λ d. by_keys keys.now out.old (seg_rank_of keys.now d))) result out.old out.new }
{
    let d = or_tell!(segments(lengths));
    or_tell!(check_limit(keys));
    told_over_or::<i32>(seg_rank_over(alloc, keys, &d, out))
}

/// The keys of each segment in ascending order.
#[unsafe(no_mangle)]
pub extern "C" fn cvl_proved_seg_sort(
    alloc: Global,
    keys: &[i32],
    lengths: &[i32],
    out: &mut [i32],
) -> CvlStatus
    ensures { ToldOr (by_segments lengths.now (λ d. by_keys keys.now out.old (seg_sorted_of keys.now d))) result out.old out.new }
{
    let d = or_tell!(segments(lengths));
    or_tell!(check_limit(keys));
    told_over_or::<i32>(seg_sort_over(alloc, keys, &d, out))
}

/// `cvl_proved_seg_sort` over `keys`.
#[unsafe(no_mangle)]
pub extern "C" fn cvl_proved_seg_sort_in(
    alloc: Global,
    keys: &mut [i32],
    lengths: &[i32],
) -> CvlStatus
    ensures { ToldOr (by_segments lengths.now (λ d. in_limit keys.old (seg_sorted_of keys.old d))) result keys.old keys.new }
{
    let d = or_tell!(segments(lengths));
    or_tell!(check_limit(keys));
    told_over_or::<i32>(seg_sort_in(alloc, keys, &d))
}

/// The status of a call that takes memory and may write over keys and values.
fn told_both(answer: Result<(), Refused>) -> CvlStatus
    ensures { (meaning : Result (List ℤ × List ℤ) Fault) (before now : List ℤ × List ℤ) → ReplacesOr meaning answer before now
        → ToldOr meaning result before now }
{
    match answer {
        Ok(()) => done(),
        Err(refused) => status_of(refused),
    }
}

/// Sorts the keys in ascending order, and moves each value with its key.
#[unsafe(no_mangle)]
pub extern "C" fn cvl_proved_sort_by_key(
    alloc: Global,
    keys: &mut [i32],
    values: &mut [i32],
) -> CvlStatus
    ensures { ToldOr (in_limit keys.old (sort_by_key_of ascending keys.old values.old)) result
        (both keys.old values.old) (both keys.new values.new) }
{
    or_tell!(check_limit(keys));
    told_both(sort_by_key_in::<Ascending, Global>(alloc, keys, values))
}

/// The same in each segment.
#[unsafe(no_mangle)]
pub extern "C" fn cvl_proved_seg_sort_by_key(
    alloc: Global,
    lengths: &[i32],
    keys: &mut [i32],
    values: &mut [i32],
) -> CvlStatus
    ensures { ToldOr (by_segments lengths.now (λ d. in_limit keys.old (seg_sort_by_key_of ascending keys.old values.old d)))
        result (both keys.old values.old) (both keys.new values.new) }
{
    let d = or_tell!(segments(lengths));
    or_tell!(check_limit(keys));
    told_both(seg_sort_by_key_in::<Ascending, Global>(alloc, keys, values, &d))
}

/// The same in descending order.
#[unsafe(no_mangle)]
pub extern "C" fn cvl_proved_sort_by_key_descending(
    alloc: Global,
    keys: &mut [i32],
    values: &mut [i32],
) -> CvlStatus
    ensures { ToldOr (in_limit keys.old (sort_by_key_of descending keys.old values.old)) result
        (both keys.old values.old) (both keys.new values.new) }
{
    or_tell!(check_limit(keys));
    told_both(sort_by_key_in::<Descending, Global>(alloc, keys, values))
}

/// The same in each segment, in descending order.
#[unsafe(no_mangle)]
pub extern "C" fn cvl_proved_seg_sort_by_key_descending(
    alloc: Global,
    lengths: &[i32],
    keys: &mut [i32],
    values: &mut [i32],
) -> CvlStatus
    ensures { ToldOr (by_segments lengths.now (λ d. in_limit keys.old (seg_sort_by_key_of descending keys.old values.old d)))
        result (both keys.old values.old) (both keys.new values.new) }
{
    let d = or_tell!(segments(lengths));
    or_tell!(check_limit(keys));
    told_both(seg_sort_by_key_in::<Descending, Global>(alloc, keys, values, &d))
}
