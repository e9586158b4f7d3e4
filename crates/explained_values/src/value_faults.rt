//! What is wrong with the arguments of a call, in words.

ghost use Rattle.std.specs.Prelude.{◌≡◌, ◌++◌, map, OnOk};
ghost use Rattle.explained_values.specs.ValueFaults.{value_fault_words};

use crate::arguments::{Argument, spelled_at};
use crate::extents::put_mismatch;
use crate::kind_faults::put_kind_fault;
use crate::name_faults::{put_too_many, put_unbound};
use crate::number_words::put_number_fault;
use crate::sum_words::{put_overflow, put_total};
use cvl_base::{Fault, FaultNo, Memory, NoResources, Op};

/// Writes the line that names the element, the number or the lengths at fault in a call, and what they should be: two spaces
/// before it, a line feed after it. `names` are those that the lines before bind, in their order and as often as they bind them,
/// and `inputs` is how many inputs the run has. Writes nothing for a fault that is not in the arguments' values.
///
/// It searches no vector beyond the place of the fault.
pub fn put_value_fault<A: Memory, B: Memory>(
    alloc: B,
    names: &[&[u8]],
    inputs: usize,
    op: Op,
    arguments: &[Argument<'_, A>],
    fault: Fault,
    text: &mut Vec<u8, B>,
) -> Result<(), NoResources>
    ensures { OnOk result (text.new.items ≡ text.old.items
        ++ value_fault_words (map (λ name. name.now) names.now) inputs op arguments.now fault) }
{
    let place = fault.place.unwrap_or(0) as usize;
    match fault.number {
        FaultNo::UnknownName => put_unbound(alloc, names, op, arguments, text),
        FaultNo::WrongKind => put_kind_fault(op, arguments, text),
        FaultNo::LengthMismatch => put_mismatch(op, arguments, text),
        FaultNo::TooManyNames => put_too_many(names, op, text),
        FaultNo::Overflow => put_overflow(op, arguments, place, text),
        FaultNo::TooLong => match op {
            Op::MakeDescriptor => put_total(&spelled_at(arguments, 0), text),
            _ => put_number_fault(inputs, op, arguments, fault.number, place, text),
        },
        _ => put_number_fault(inputs, op, arguments, fault.number, place, text),
    }
}
