//! The numbers in an input's bytes, once they are read.

ghost use Rattle.std.specs.Prelude.{◌≡◌, ◌≤◌, Err, IfOk, Ok, vec_len};
ghost use Rattle.std.proofs.Props.{props};
ghost use Rattle.cvl_base.specs.declared.fault.FaultNo.TheVariants.{BadInput};
ghost use Rattle.cvl_base.specs.Faults.{fault_at};
ghost use Rattle.cvl_base.specs.Limits.{most_elements};
ghost use Rattle.call_reader.specs.Inputs.{input_of};
ghost use Rattle.call_reader.specs.NestedTexts.{nested_of};

use bound_names::SharedInts;
use call_reader::nested_laws::flat_is_no_nest;
use cvl_base::{Ints, Memory, NoResources};
use std::snapshot::Snapshot;

/// The numbers in an input's bytes. The bytes themselves may be gone: only their snapshot is kept, which takes no memory.
#[derive(Drop)]
pub struct ReadBytes<A: Memory> {
    pub(crate) numbers: SharedInts<A>,
    pub(crate) bytes: Snapshot<Vec<u8, A>>,
    ghost read: { input_of bytes.value.items ≡ Ok numbers } by { Prim.hlevel props },
    ghost no_nest: { nested_of bytes.value.items ≡ Err (fault_at BadInput 0) } by { Prim.hlevel props },
}

impl<A: Memory> ReadBytes<A> {
    /// These numbers of these bytes, ready to be shared. No element is copied.
    pub(crate) fn new(
        alloc: A,
        bytes: &Vec<u8, A>,
        numbers: Vec<i32, A>,
    ) -> Result<ReadBytes<A>, NoResources>
        requires read { input_of bytes.now.items ≡ Ok numbers.items }
        requires in_limit { vec_len numbers ≤ most_elements }
        ensures { IfOk result (λ read. read.bytes.value ≡ bytes.now) }
    {
        flat_is_no_nest();
        let numbers = SharedInts::new(alloc, Ints::from_vec(numbers))?;
        Ok(ReadBytes {
            numbers,
            bytes: Snapshot::of(bytes),
        })
    }
}
