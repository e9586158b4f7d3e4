//! A run of places of a block, which one thread writes from front to back.
ghost use Rattle.std.specs.Prelude.{◌≡◌, ◌+◌, ◌-◌, ◌<◌, ◌≤◌, ◌⊎◌, List, [], ◌∷◌, ◌++◌, length, ◌^◌, cond};
ghost use Rattle.fresh.specs.Places.{stretch, with_items, filled, somes, Follows};

use crate::cells::{Base, Cells};
use std::marker::Model;

/// Some neighbouring places of a block; the first ones are written and the others are empty.
///
/// A run may go to another thread if its items may. If dropped, it leaks its items, and its block can't be freed, which the
/// block's [`Room`](crate::Room) shows.
#[derive(Drop)]
pub struct Run<T> {
    base: Base<T>,
    first: usize,
    len: usize,
    written: usize,
    cells: Cells<T>,
}

impl<T> Model for Run<T> {
    ghost use Rattle.std.specs.Prelude.{◌-◌};
    ghost use Rattle.fresh.specs.Places.{Stretch, stretch, stretch_code, somes, IsRun};

    ghost Value = { Stretch T };

    ghost coded = { stretch_code T.code };

    ghost view = { λ r. stretch r.base.ptr r.first (somes r.cells.slots) (r.len - r.written) };

    ghost invariant = { λ r. IsRun r.cells r.base.ptr r.first r.len r.written };
}

impl<T> Run<T> {
    /// All the places of a block, the first ones of which are written.
    pub(crate) fn begun(base: Base<T>, len: usize, written: usize, cells: Cells<T>) -> Run<T>
        requires place { (cells.at ≡ base.ptr) × (cells.from ≡ 0) × (len < 2 ^ 63) }
        requires laid { (items : List T) × (length items ≡ written) × (written ≤ len)
            × (cells.slots ≡ filled items (len - written)) }
        ensures begun { result ≡ stretch base.ptr 0 (somes cells.slots) (len - written) }
        ensures empty { written ≡ 0 → result ≡ stretch base.ptr 0 [] len }
    {
        Run {
            base,
            first: 0,
            len,
            written,
            cells,
        }
    }

    /// How many items are written, and the places.
    pub(crate) fn into_cells(self) -> (usize, Cells<T>)
        ensures len { result.0 ≡ length self.items }
        ensures cells { (result.1.at ≡ self.block) × (result.1.from ≡ self.first)
            × (result.1.slots ≡ filled self.items self.room) }
    {
        let Run {
            base: _,
            first: _,
            len: _,
            written,
            cells,
        } = self;
        (written, cells)
    }

    /// The number of the first place in the block.
    pub fn first(&self) -> usize
        ensures { result ≡ self.now.first }
    {
        self.first
    }

    /// The number of places.
    pub fn len(&self) -> usize
        ensures { result ≡ length self.now.items + self.now.room }
    {
        self.len
    }

    /// The number of the next place to write.
    pub fn next_place(&self) -> usize
        ensures place { result ≡ self.now.first + length self.now.items }
        ensures within { result + self.now.room < 2 ^ 63 }
    {
        self.first + self.written
    }

    /// How many places are empty.
    pub fn room(&self) -> usize
        ensures { result ≡ self.now.room }
    {
        self.len - self.written
    }

    /// The first `k` places and the others; all that is written lies in the first.
    pub fn split_at(self, k: usize) -> (Run<T>, Run<T>)
        requires { (length self.items ≤ k) × (k ≤ length self.items + self.room) }
        ensures first { result.0 ≡ stretch self.block self.first self.items (k - length self.items) }
        ensures second { result.1 ≡ stretch self.block (self.first + k) [] (length self.items + self.room - k) }
    {
        let Run {
            base,
            first,
            len,
            written,
            cells,
        } = self;
        let (front, back) = cells.split(k);
        (
            Run {
                base,
                first,
                len: k,
                written,
                cells: front,
            },
            Run {
                base,
                first: first + k,
                len: len - k,
                written: 0,
                cells: back,
            },
        )
    }

    /// The places of both runs; `next` begins at this one's end, and this one is full or nothing is written in `next`.
    pub fn joined(self, next: Run<T>) -> Run<T>
        requires { Follows self next × ((self.room ≡ 0) ⊎ (next.items ≡ [])) }
        ensures { result ≡ stretch self.block self.first (self.items ++ next.items) (self.room + next.room) }
    {
        let Run {
            base,
            first,
            len,
            written,
            cells,
        } = self;
        let Run {
            base: _,
            first: _,
            len: next_len,
            written: next_written,
            cells: next_cells,
        } = next;
        Run {
            base,
            first,
            len: len + next_len,
            written: written + next_written,
            cells: cells.merge(next_cells),
        }
    }

    /// Writes the next place.
    pub fn push(&mut self, item: T)
        requires { 0 < self.old.room }
        ensures { self.new ≡ stretch self.old.block self.old.first (self.old.items ++ item ∷ []) (self.old.room - 1) }
    {
        self.cells.write(self.base, self.first + self.written, item);
        self.written += 1;
    }

    /// Takes back the last item, whose place is empty then.
    pub fn pop(&mut self) -> T
        requires { 0 < length self.old.items }
        ensures last { self.old.items ≡ self.new.items ++ result ∷ [] }
        ensures others { self.new ≡ stretch self.old.block self.old.first self.new.items (self.old.room + 1) }
    {
        self.written -= 1;
        self.cells.read(self.base, self.first + self.written)
    }
}

impl<T: Copy> Run<T> {
    /// Writes the next place and, unless the item is `kept`, takes it back: the memory is written either way, so that the
    /// processor has no branch to guess.
    pub fn push_if(&mut self, item: T, kept: bool)
        requires { 0 < self.old.room }
        ensures { self.new ≡ with_items self.old (cond kept (item ∷ []) []) }
    {
        self.push(item);
        if !kept {
            self.pop();
        }
    }
}
