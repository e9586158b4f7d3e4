//! One part of a permute of booleans that come as bytes, any of which but 0 is true; the result's are 0 and 1.

ghost use Rattle.std.specs.Prelude.{ℕ, List, Result};
ghost use Rattle.cvl_base.specs.declared.fault.Fault.{Fault};
ghost use Rattle.part_calls.specs.Ranges.{WritesRange};
ghost use Rattle.permute_parts.specs.Ranges.{as_flags_in, part_default_of, part_permute_of, part_select_of};

use crate::ranges::{part_default_permute, part_permute, part_select_permute};
use cvl_base::Fault;
use flag_calls::make_flags;

/// Makes the bytes of a range 0 and 1 if it was written, and passes the answer on.
fn with_flags(answer: Result<usize, Fault>, out: &mut [u8]) -> Result<usize, Fault>
    ensures { (meaning : Result (List ℕ × List ℕ × ℕ) Fault) (before : List ℕ × List ℕ) (marks : List ℕ) →
        WritesRange meaning answer before (out.old, marks) → WritesRange (as_flags_in meaning) result before (out.new, marks) }
{
    let count = answer?;
    make_flags(out);
    Ok(count)
}

/// One part of a simple permute of booleans, as [`part_permute`]. All bytes of the range are made 0 or 1.
pub fn part_flag_permute(
    from: usize,
    source: &[u8],
    index: &[i32],
    out: &mut [u8],
    marks: &mut [u32],
) -> Result<usize, Fault>
    ensures { WritesRange (as_flags_in (part_permute_of source.now index.now from out.old marks.old)) result
        (out.old, marks.old) (out.new, marks.new) }
{
    let answer = part_permute(from, source, index, out, marks);
    with_flags(answer, out)
}

/// One part of a select permute of booleans, as [`part_select_permute`]. All bytes of the range are made 0 or 1.
pub fn part_flag_select_permute(
    from: usize,
    source: &[u8],
    index: &[i32],
    flags: &[bool],
    out: &mut [u8],
    marks: &mut [u32],
) -> Result<usize, Fault>
    ensures { WritesRange (as_flags_in (part_select_of source.now index.now flags.now from out.old marks.old)) result
        (out.old, marks.old) (out.new, marks.new) }
{
    let answer = part_select_permute(from, source, index, flags, out, marks);
    with_flags(answer, out)
}

/// One part of a default permute of booleans, as [`part_default_permute`]. All bytes of the range are made 0 or 1.
pub fn part_flag_default_permute(
    from: usize,
    source: &[u8],
    index: &[i32],
    defaults: &[u8],
    out: &mut [u8],
    marks: &mut [u32],
) -> Result<usize, Fault>
    ensures { WritesRange (as_flags_in (part_default_of source.now index.now from defaults.now out.old marks.old)) result
        (out.old, marks.old) (out.new, marks.new) }
{
    let answer = part_default_permute(from, source, index, defaults, out, marks);
    with_flags(answer, out)
}
