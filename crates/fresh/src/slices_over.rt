//! A slice overwritten by the items of a run.
ghost use Rattle.std.specs.Prelude.{◌≡◌, ◌<◌, ◌^◌, List, Some, None, [], length, map, replicate};
ghost use denote.RawPtr.{Ptr};
ghost use Rattle.fresh.specs.Places.{IsWhole, Stretch, stretch};
ghost use Rattle.core.specs.Mem.Slots.{slots_items, slots_len, slots_ptr, IsFull, Refills};

use crate::cells::{Base, Cells};
use crate::forks::Writer;
use crate::run::Run;
use core::slots::{Slots, with_slots};
use std::marker::PhantomData;

/// Writes the items of a run over a slice of as many, on the calling thread. It takes no memory.
///
/// `write` takes an empty run of as many places as the slice has, and returns it full.
pub fn fill_slice<T: Copy, F: FnOnce(Run<T>) -> Run<T>>(out: &mut [T], write: F)
    requires fits { length out.old < 2 ^ 63 }
    requires callable { (block : Ptr) → F.pre write (stretch block 0 [] (length out.old)) }
    requires full { (block : Ptr) (run : Stretch T) → F.post write (stretch block 0 [] (length out.old)) run
        → IsWhole run block (length out.old) }
    ensures { (block : Ptr) × (run : Stretch T) × F.post write (stretch block 0 [] (length out.old)) run × (out.new ≡ run.items) }
{
    unsafe { with_slots(out, &mut (), write, write_row::<T, F>) }
}

/// Writes a writer's items over a slice that has as many, on the calling thread. It takes no memory.
pub fn write_over<T: Copy, W: Writer<T>>(out: &mut [T], writer: &W)
    requires as_long { length out.old ≡ length (W.whole writer.now) }
    requires fits { length out.old < 2 ^ 63 }
    ensures { out.new ≡ W.whole writer.now }
{
    fill_slice(
        out,
        |run: Run<T>| -> Run<T>
            requires { (run.items ≡ []) × (run.first ≡ 0) × (run.room ≡ length (W.whole writer.now)) }
            ensures { result ≡ stretch run.block 0 (W.whole writer.entry.now) 0 }
        { writer.write(run) },
    )
}

/// Writes the items of a run into a row that has as many places.
fn write_row<T: Copy, F: FnOnce(Run<T>) -> Run<T>>(
    row: Slots<T>,
    state: (),
    write: F,
) -> (Slots<T>, (), ())
    requires fits { slots_len row < 2 ^ 63 }
    requires callable { F.pre write (stretch (slots_ptr row) 0 [] (slots_len row)) }
    requires full { (run : Stretch T) → F.post write (stretch (slots_ptr row) 0 [] (slots_len row)) run
        → IsWhole run (slots_ptr row) (slots_len row) }
    ensures same { Refills row result.0 }
    ensures items { (run : Stretch T) × F.post write (stretch (slots_ptr row) 0 [] (slots_len row)) run
        × (slots_items result.0 ≡ run.items) }
{
    let len = row.len();
    let (base, cells) = emptied(row);
    let (_, cells) = write(Run::begun(base, len, 0, cells)).into_cells();
    (filled_row(base, len, cells), state, ())
}

/// The places of a row, emptied. What they held is forgotten.
fn emptied<T>(row: Slots<T>) -> (Base<T>, Cells<T>)
    ensures base { result.0.ptr ≡ slots_ptr row }
    ensures cells { (result.1.at ≡ slots_ptr row) × (result.1.from ≡ 0) × (result.1.slots ≡ replicate (slots_len row) None) }
{
    let parts = unsafe { row.into_raw_parts() };
    (Base { ptr: parts.0 }, Cells { mark: PhantomData })
}

/// The row of places that all hold an item.
fn filled_row<T>(base: Base<T>, len: usize, cells: Cells<T>) -> Slots<T>
    requires whole { (cells.at ≡ base.ptr) × (cells.from ≡ 0) }
    requires full { (xs : List T) × (length xs ≡ len) × (cells.slots ≡ map Some xs) }
    ensures places { (slots_ptr result ≡ base.ptr) × (slots_len result ≡ len) × IsFull result }
    ensures items { cells.slots ≡ map Some (slots_items result) }
{
    let Cells { mark: _ } = cells;
    unsafe { Slots::from_raw_parts(base.ptr, len) }
}
