//! What the export that reads a nested text leaves in its caller's two rooms.

ghost use Rattle.std.specs.Prelude.{◌≡◌, Err, List, MatchResult, Ok, Result, ℕ, ℤ};
ghost use Rattle.cvl_base.specs.declared.fault.Fault.{Fault};
ghost use Rattle.cvl_base.specs.Gives.{Gives};
ghost use Rattle.c_calls.specs.Fronts.{FrontsToldOr, at_fronts};
ghost use Rattle.c_calls.specs.NestedTexts.{with_lengths};
ghost use Rattle.c_calls.specs.Told.{front_of};

use crate::status::{CvlStatus, done, put_in_front, status_of};
use cvl_base::{Fault, FaultNo, Refused};
use segdes::SegDes;
use std::alloc::Global;

/// Copies two lists to the fronts of two rooms, whose rests stay as they are; or `LengthMismatch`, without a place, if a room is
/// too short, and both stay as they are.
fn put_in_fronts<X: Copy, Y: Copy>(
    xs: &[X],
    ys: &[Y],
    first: &mut [X],
    second: &mut [Y],
) -> Result<(), Fault>
    ensures { MatchResult result
        (λ _. at_fronts (first.old, second.old) (xs.now, ys.now) ≡ Ok (first.new, second.new))
        (λ f. (at_fronts (first.old, second.old) (xs.now, ys.now) ≡ Err f) × (first.new ≡ first.old)
        × (second.new ≡ second.old)) }
{
    if xs.len() > first.len() || ys.len() > second.len() {
        return Err(Fault::new(FaultNo::LengthMismatch));
    }
    put_in_front(xs, first)?;
    put_in_front(ys, second)
}

/// Copies a vector and the lengths of its segments to the fronts of two rooms, and their numbers to the counts, for a caller who
/// may not know them; returns the status. If a room is too short, both are as before, and the counts are the lengths that they
/// need. Without a vector, rooms and counts are as before.
pub fn told_nest(
    answer: Result<(Vec<i32, Global>, SegDes<Global>), Refused>,
    out: &mut [i32],
    count: &mut usize,
    lengths: &mut [i32],
    segments: &mut usize,
) -> CvlStatus
    ensures { (meaning : Result (List ℤ × List ℕ) Fault) → Gives (λ p. (p.0.items, p.1)) answer meaning
        → FrontsToldOr (with_lengths meaning) result
        (front_of out.old count.old, front_of lengths.old segments.old)
        (front_of out.new count.new, front_of lengths.new segments.new) }
{
    match answer {
        Ok((numbers, d)) => {
            *count = numbers.len();
            *segments = d.lengths().len();
            match put_in_fronts(&numbers, d.lengths(), out, lengths) {
                Ok(()) => done(),
                Err(fault) => status_of(fault.into()),
            }
        }
        Err(refused) => status_of(refused),
    }
}
