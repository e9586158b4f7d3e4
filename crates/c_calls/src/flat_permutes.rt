//! Permutes of whole vectors, by an index of at most 2,147,483,647 elements.

ghost use Rattle.cvl_base.specs.Permutes.{back_of, default_of, select_of, simple_of};
ghost use Rattle.c_calls.specs.Calls.{in_limit};
ghost use Rattle.c_calls.specs.Rooms.{Fills, FillsOr};

use crate::checks::check_limit;
use cvl_base::{Fault, Refused};
use permutes::{back_over, default_into_over, select_over, simple_over};
use std::alloc::Global;

/// Each element at its index.
pub fn simple<T: Copy>(
    alloc: Global,
    source: &[T],
    index: &[i32],
    out: &mut [T],
) -> Result<(), Refused>
    ensures { FillsOr (in_limit index.now (simple_of source.now index.now)) result out.old out.new }
{
    check_limit(index)?;
    simple_over(alloc, source, index, out)
}

/// Each element whose flag is true, at its index.
pub fn select<T: Copy>(
    alloc: Global,
    source: &[T],
    index: &[i32],
    flags: &[bool],
    out: &mut [T],
) -> Result<(), Refused>
    ensures { FillsOr (in_limit index.now (select_of source.now index.now flags.now)) result out.old out.new }
{
    check_limit(index)?;
    select_over(alloc, source, index, flags, out)
}

/// Each element at its index, and at a place that gets none its default.
pub fn default_into<T: Copy>(
    alloc: Global,
    source: &[T],
    index: &[i32],
    defaults: &[T],
    out: &mut [T],
) -> Result<(), Refused>
    ensures { FillsOr (in_limit index.now (default_of source.now index.now defaults.now)) result out.old out.new }
{
    check_limit(index)?;
    default_into_over(alloc, source, index, defaults, out)
}

/// At each place the element at that place's index.
pub fn back<T: Copy>(source: &[T], index: &[i32], out: &mut [T]) -> Result<(), Fault>
    ensures { Fills (in_limit index.now (back_of source.now index.now)) result out.old out.new }
{
    check_limit(index)?;
    back_over(source, index, out)
}
