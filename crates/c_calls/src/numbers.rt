//! The numbers by which a caller chooses an operator. The header names each.

ghost use Rattle.std.specs.Prelude.{◌≡◌, find};
ghost use Rattle.call_table.specs.Operators.{has_number};
ghost use Rattle.c_calls.specs.Numbers.{known};

use cvl_base::{Family, Fault, FaultNo, numbered};

/// The operator of a family with this number; `UnknownCall`, without a place, if none has it.
pub fn operator_of<F: Family>(number: u32) -> Result<F, Fault>
    ensures { result ≡ known (find (has_number F.label number) F.all) }
{
    numbered::<F>(number).ok_or(Fault::new(FaultNo::UnknownCall))
}
