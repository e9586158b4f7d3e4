//! The answer of a closed least board.

ghost use Rattle.std.specs.Prelude.{◌≡◌, ◌<◌, None, length, slice_index_or, map, take};
ghost use Rattle.std.specs.Slots.{IsFull, slots_items, slots_len};
ghost use Rattle.least_boards.specs.LeastPasses.{place_of_word};

use crate::least_words::place_of;
use atomic_table::Closed;
use std::alloc::Allocator;
use std::marker::Model;

/// The least place that was lowered in each slot of a closed least board. Its model is the list of these places; it holds the
/// words in which they were lowered.
pub struct Leasts<A: Allocator> {
    closed: Closed<(), A>,
    slots: u32,
    ghost full: { IsFull closed.words },
    ghost long: { slots < slots_len closed.words },
    ghost none_else: { slots_len closed.slots ≡ 0 },
}

impl<A: Allocator> Model for Leasts<A> {
    ghost use Rattle.std.specs.Prelude.{ℕ, List, Option, map, take};
    ghost use Rattle.std.specs.Slots.{slots_items};
    ghost use Rattle.least_boards.specs.LeastPasses.{place_of_word};

    ghost Value = { List (Option ℕ) };

    ghost view = { λ l. map place_of_word (take l.slots (slots_items l.closed.words)) };
}

impl<A: Allocator> Leasts<A> {
    /// The least places of `slots` slots, from the table's words.
    pub(crate) fn of(closed: Closed<(), A>, slots: u32) -> Leasts<A>
        requires full { IsFull closed.words }
        requires long { slots < slots_len closed.words }
        requires none_else { slots_len closed.slots ≡ 0 }
        ensures { result ≡ map place_of_word (take slots (slots_items closed.words)) }
    {
        Leasts { closed, slots }
    }

    /// The least place that was lowered in a slot, if any was. It takes no memory.
    pub fn get(&self, slot: u32) -> Option<u32>
        requires { slot < length self.now }
        ensures { result ≡ slice_index_or self.now slot None }
    {
        place_of(self.closed.word(slot as usize))
    }
}

impl<A: Allocator> Drop for Leasts<A> {
    fn drop(self) {
        let Leasts { closed, slots: _ } = self;
        closed.free();
    }
}
