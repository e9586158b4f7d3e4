//! Sums that do not fit.

ghost use Rattle.std.specs.Prelude.{◌≡◌, ◌++◌, OnOk, Some};
ghost use Rattle.explained_values.specs.Arguments.{line_of};
ghost use Rattle.explained_values.specs.SumWords.{end_words, overflow_words, total_words};

use crate::arguments::{Argument, spelled_at};
use crate::segments::{Part, places_of, segment_at, total_of};
use crate::sentences::Element;
use cvl_base::{Memory, NoResources, Op};
use explained_calls::{Line, Number, Words, said};

/// How far a sum goes, unless it is that of all elements.
#[derive(Drop)]
struct End<'a> {
    op: Op,
    vector: &'a [u8],
    place: usize,
}

impl<'a> Words for End<'a> {
    ghost words = { λ end. end_words end.op end.vector.now end.place };

    fn put<A: Memory>(&self, text: &mut Vec<u8, A>) -> Result<(), NoResources> {
        match self.op {
            Op::CheckedScan(_) => {
                let last = Element(self.vector, self.place.saturating_sub(1));
                said![b" up to ", last].put(text)
            }
            _ => Ok(()),
        }
    }
}

/// Writes the line about a sum that does not fit.
pub(crate) fn put_overflow<A: Memory, B: Memory>(
    op: Op,
    arguments: &[Argument<'_, A>],
    place: usize,
    text: &mut Vec<u8, B>,
) -> Result<(), NoResources>
    ensures { OnOk result (text.new.items ≡ text.old.items ++ line_of (Some (overflow_words op arguments.now place))) }
{
    let vector = spelled_at(arguments, 0).word();
    let segment = segment_at(places_of(op), arguments, place);
    let part = Part { segment, vector };
    let end = End { op, vector, place };
    Line(said![b"the sum of ", part, end, b" does not fit 32 bits"]).put(text)
}

/// Writes the line about lengths that add up to too many elements.
pub(crate) fn put_total<A: Memory, B: Memory>(
    argument: &Argument<'_, A>,
    text: &mut Vec<u8, B>,
) -> Result<(), NoResources>
    ensures { OnOk result (text.new.items ≡ text.old.items ++ line_of (Some (total_words argument.now))) }
{
    let total = Number(total_of(argument.integers()));
    let end = b", and a vector has at most 4194304 elements";
    Line(said![
        b"the lengths in ",
        argument.word(),
        b" add up to ",
        total,
        end
    ])
    .put(text)
}
