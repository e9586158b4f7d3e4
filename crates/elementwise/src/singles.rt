//! The operators on each element, and the conversions.

ghost use Rattle.std.specs.Prelude.{◌≡◌, IfOk, length, vec_len};
ghost use Rattle.cvl_base.specs.Elementwise.{bools1_of, bools_from_ints, ints1_of, ints_from_bools};

use crate::copies::copied;
use crate::values::values_on_each;
use cvl_base::singles::{BoolOfInt, IntOfBool, NotBool, NotInt};
use cvl_base::{Config, Memory, NoResources, Unary};
use std::thread::Threads;

/// The operator on each element: `not_wuz` and `cpy_wuz`.
///
/// The result is as long as `a`. There is no fault. `rayon` shares long vectors among threads, whatever the number of workers.
/// Source: CVL's elementwise calls.
pub fn int1<R: Threads + Sync, A: Memory>(
    rt: &R,
    alloc: A,
    _config: Config,
    op: Unary,
    a: &[i32],
) -> Result<Vec<i32, A>, NoResources>
    ensures values { IfOk result (λ v. v.items ≡ ints1_of op a.now) }
    ensures as_long { IfOk result (λ v. vec_len v ≡ length a.now) }
{
    match op {
        Unary::Not => values_on_each::<NotInt, i32, i32, R, A>(rt, alloc, a),
        Unary::Copy => copied(rt, alloc, a),
    }
}

/// The operator on each boolean: `not_wub` and `cpy_wub`.
///
/// The result is as long as `a`. There is no fault. `rayon` shares long vectors among threads, whatever the number of workers.
/// Source: CVL's elementwise calls.
pub fn bool1<R: Threads + Sync, A: Memory>(
    rt: &R,
    alloc: A,
    _config: Config,
    op: Unary,
    a: &[bool],
) -> Result<Vec<bool, A>, NoResources>
    ensures values { IfOk result (λ v. v.items ≡ bools1_of op a.now) }
    ensures as_long { IfOk result (λ v. vec_len v ≡ length a.now) }
{
    match op {
        Unary::Not => values_on_each::<NotBool, bool, bool, R, A>(rt, alloc, a),
        Unary::Copy => copied(rt, alloc, a),
    }
}

/// 1 for each true boolean, and 0 for each false one: `int_wub`.
///
/// The result is as long as `a`. There is no fault. `rayon` shares long vectors among threads, whatever the number of workers.
/// Source: CVL's conversions.
pub fn int_from_bool<R: Threads + Sync, A: Memory>(
    rt: &R,
    alloc: A,
    _config: Config,
    a: &[bool],
) -> Result<Vec<i32, A>, NoResources>
    ensures values { IfOk result (λ v. v.items ≡ ints_from_bools a.now) }
    ensures as_long { IfOk result (λ v. vec_len v ≡ length a.now) }
{
    values_on_each::<IntOfBool, bool, i32, R, A>(rt, alloc, a)
}

/// True for each number that isn't 0: `boo_wuz`.
///
/// The result is as long as `a`. There is no fault. `rayon` shares long vectors among threads, whatever the number of workers.
/// Source: CVL's conversions.
pub fn bool_from_int<R: Threads + Sync, A: Memory>(
    rt: &R,
    alloc: A,
    _config: Config,
    a: &[i32],
) -> Result<Vec<bool, A>, NoResources>
    ensures values { IfOk result (λ v. v.items ≡ bools_from_ints a.now) }
    ensures as_long { IfOk result (λ v. vec_len v ≡ length a.now) }
{
    values_on_each::<BoolOfInt, i32, bool, R, A>(rt, alloc, a)
}
