//! The word of a slot: how a place is lowered in it, and how it is read.

ghost use Rattle.std.specs.Prelude.{◌≡◌, ◌<◌, ◌≤◌, Some, None, IfSome, slice_index_or};
ghost use Rattle.least_boards.specs.Seats.{with_pass};
ghost use Rattle.least_boards.specs.LeastBoards.{IsLeastSeatOf};
ghost use Rattle.least_boards.specs.LeastPasses.{known_in, place_lowered, place_of_word, place_seen, word_of_place};

use crate::least_board::LeastBoard;
use crate::least_pass::LeastPass;
use crate::least_rule::{LeastStep, LowerStep};
use crate::seat::LeastSeat;
use crate::targets::Targets;
use status_word::hand_law;
use std::alloc::Allocator;

impl<T: Targets, A: Allocator> LeastBoard<T, A> {
    /// Lowers a place in its slot: from then on the slot's word is at most this place. One fetch_min, which takes no
    /// memory.
    pub fn lower(&self, seat: &mut LeastSeat, slot: u32, place: u32)
        requires seat { IsLeastSeatOf self.now seat.old }
        requires slot { slot < self.now.slots }
        requires target { slice_index_or self.now.targets place None ≡ Some slot }
        ensures same { IsLeastSeatOf self.now seat.new }
        ensures lowered { seat.new ≡ with_pass seat.old (place_lowered seat.old.pass slot place) }
    {
        hand_law::<LeastPass>();
        self.table
            .shared
            .fetch_min::<LowerStep>(&mut seat.seat, slot as usize, u64::from(place));
    }

    /// A place of a slot that was lowered, if any was: at most what this seat lowered or saw there, and none only if it
    /// lowered and saw none. One load, which takes no memory.
    pub fn least(&self, seat: &mut LeastSeat, slot: u32) -> Option<u32>
        requires seat { IsLeastSeatOf self.now seat.old }
        requires slot { slot < self.now.slots }
        ensures same { IsLeastSeatOf self.now seat.new }
        ensures of_slot { IfSome result (λ p. slice_index_or self.now.targets p None ≡ Some slot) }
        ensures least { word_of_place result ≤ known_in slot seat.old.pass }
        ensures seen { seat.new ≡ with_pass seat.old (place_seen seat.old.pass slot (word_of_place result)) }
    {
        hand_law::<LeastPass>();
        let word = self
            .table
            .shared
            .load::<LeastStep>(&mut seat.seat, slot as usize);
        place_of(word)
    }
}

/// The place that stands in a word, if one does.
pub(crate) fn place_of(word: u64) -> Option<u32>
    ensures { result ≡ place_of_word word }
{
    u32::try_from(word).ok()
}
