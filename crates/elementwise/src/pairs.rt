//! The operators on each two elements at the same place: those on integers and on booleans, and the comparisons.

ghost use Rattle.std.specs.Prelude.{◌≡◌, ◌≤◌, IfOk, length, vec_len};
ghost use Rattle.cvl_base.specs.Elementwise.{bools2_of, compare_of, ints2_of};
ghost use Rattle.cvl_base.specs.Gives.{Gives};
ghost use Rattle.cvl_base.specs.Limits.{most_elements};

use crate::races::values_or_fault;
use crate::values::values_on_pairs;
use crew::Gate;
use cvl_base::{
    BoolBinary, Comparison, Config, IntBinary, Memory, Refused, by_bool_binary, by_comparison,
    by_int_binary,
};
use std::thread::Threads;

/// The operator on each two elements at the same place: `add_wuz` and its like.
///
/// The vectors have at most 4,194,304 elements, and the result is as long. The faults are, in this order, `LengthMismatch`,
/// without a place, if one is longer, and `DivideByZero` or `ShiftOutOfRange` at the first place, counted from 0, at which a
/// quotient, a remainder or a shift has no value. For these four operators the workers of the configuration race for that place
/// in long vectors, and no more threads write the result. For the others `rayon` shares long vectors among threads, whatever the
/// number of workers. Source: CVL's elementwise calls.
///
/// Workers who race for the first fault pass `gate` at `Claimed` and `Finished` of each tile.
pub fn int2<R: Threads + Sync, A: Memory, G: Gate>(
    rt: &R,
    alloc: A,
    config: Config,
    op: IntBinary,
    a: &[i32],
    b: &[i32],
    gate: &G,
) -> Result<Vec<i32, A>, Refused>
    requires in_limit { length a.now ≤ most_elements }
    ensures values { Gives (λ v. v.items) result (ints2_of op a.now b.now) }
    ensures as_long { IfOk result (λ v. vec_len v ≡ length a.now) }
{
    by_int_binary!(
        op,
        values_on_pairs::<_, i32, i32, R, A>(rt, alloc, a, b),
        values_or_fault::<_, R, A, G>(rt, alloc, config, a, b, gate)
    )
}

/// The operator on each two booleans at the same place: `and_wub` and its like.
///
/// The result is as long as the vectors. The one fault is `LengthMismatch`, without a place, if one is longer. `rayon` shares
/// long vectors among threads, whatever the number of workers. Source: CVL's elementwise calls.
pub fn bool2<R: Threads + Sync, A: Memory>(
    rt: &R,
    alloc: A,
    _config: Config,
    op: BoolBinary,
    a: &[bool],
    b: &[bool],
) -> Result<Vec<bool, A>, Refused>
    ensures values { Gives (λ v. v.items) result (bools2_of op a.now b.now) }
    ensures as_long { IfOk result (λ v. vec_len v ≡ length a.now) }
{
    by_bool_binary!(op, values_on_pairs::<_, bool, bool, R, A>(rt, alloc, a, b))
}

/// The comparison of each two elements at the same place, on signed numbers: `grt_wuz` and its like.
///
/// The result is as long as the vectors. The one fault is `LengthMismatch`, without a place, if one is longer. `rayon` shares
/// long vectors among threads, whatever the number of workers. Source: CVL's elementwise calls.
pub fn compare<R: Threads + Sync, A: Memory>(
    rt: &R,
    alloc: A,
    _config: Config,
    op: Comparison,
    a: &[i32],
    b: &[i32],
) -> Result<Vec<bool, A>, Refused>
    ensures values { Gives (λ v. v.items) result (compare_of op a.now b.now) }
    ensures as_long { IfOk result (λ v. vec_len v ≡ length a.now) }
{
    by_comparison!(op, values_on_pairs::<_, i32, bool, R, A>(rt, alloc, a, b))
}
