//! An input read by several threads.

ghost use Rattle.std.specs.Prelude.{◌≤◌, IfOk, vec_len};
ghost use Rattle.cvl_base.specs.Gives.{Gives};
ghost use Rattle.cvl_base.specs.Limits.{most_elements};
ghost use Rattle.call_reader.specs.Inputs.{input_of};

use crate::pieces::Piece;
use cvl_base::limits::MOST_ELEMENTS;
use cvl_base::{Fault, FaultNo, Memory, Refused};
use sharing::ThreadCount;
use std::thread::Threads;
use value_texts::made_in_parts;

/// Reads an input by several threads, each of which reads a piece of it. The answers are those of `read_vector`.
#[tactic(auto, using(crate::proofs::PieceWalk::input_is, crate::proofs::PieceWalk::input_too_long))]
pub(crate) fn read_by_several<R: Threads + Sync, A: Memory>(
    rt: &R,
    alloc: A,
    threads: ThreadCount,
    bytes: &[u8],
) -> Result<Vec<i32, A>, Refused>
    ensures values { Gives (λ v. v.items) result (input_of bytes.now) }
    ensures in_limit { IfOk result (λ v. vec_len v ≤ most_elements) }
{
    let whole = Piece { bytes };
    let Some((numbers, wrong)) = made_in_parts(rt, alloc, threads, whole, MOST_ELEMENTS)? else {
        return Err(Refused::Fault(Fault::new(FaultNo::TooLong)));
    };
    match wrong {
        Some(place) => Err(Refused::Fault(Fault::at(FaultNo::BadInput, place as u32))),
        None => Ok(numbers),
    }
}
