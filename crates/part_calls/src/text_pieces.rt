//! The integers of one piece of a text that is cut at white space.

ghost use Rattle.std.specs.Prelude.{◌≡◌, ◌+◌, ◌≤◌, IfSome, option_map};
ghost use Rattle.cvl_base.specs.Gives.{Gives};
ghost use Rattle.cvl_base.specs.Limits.{most_places};
ghost use Rattle.part_calls.specs.Pieces.{piece_of};

use crate::limits::check_few;
use call_reader::read_vector_within;
use cvl_base::limits::MOST_PLACES;
use cvl_base::{Fault, Memory, Refused};

/// The fault of a piece, at its place in the whole.
fn moved(fault: Fault, before: usize) -> Fault
    requires few { before ≤ most_places }
    requires within { IfSome fault.place (λ place. place ≤ most_places) }
    ensures { result ≡ record { number = fault.number; place = option_map (λ place. before + place) fault.place } }
{
    match fault.place {
        Some(place) => Fault::at(fault.number, before as u32 + place),
        None => fault,
    }
}

/// The integers in a piece of a text, between white space; `before` is the number of words before the piece.
///
/// `TooLong`, without a place, if `before` is more than 2,147,483,647, or the piece has more words; else `BadInput` at the first
/// word of the piece that is no integer of 32 bits, counted from the whole text's first word. You must check that all pieces
/// together have no more words than a vector may have elements.
pub fn read_piece<A: Memory>(alloc: A, before: usize, text: &[u8]) -> Result<Vec<i32, A>, Refused>
    ensures { Gives (λ v. v.items) result (piece_of before text.now) }
{
    check_few(before)?;
    match read_vector_within(alloc, MOST_PLACES, text) {
        Ok(numbers) => Ok(numbers),
        Err(Refused::Fault(fault)) => Err(Refused::Fault(moved(fault, before))),
        Err(Refused::NoResources) => Err(Refused::NoResources),
    }
}
