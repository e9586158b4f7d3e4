//! The work of each worker who races for the least places.

ghost use Rattle.std.specs.Prelude.{◌≡◌, ◌+◌, ◌<◌, ◌≤◌, ℕ, IfSome, IsTrue, None, Some, length, slice_index_or};
ghost use Rattle.least_boards.specs.LeastBoards.{IsLeastSeatOf};
ghost use Rattle.least_boards.specs.LeastPasses.{lowered_in, seen_in};
ghost use Rattle.least_races.specs.Facts.{HasAnswered, HasGoneOn, HasLowered, IsCutInto, IsOver};
ghost use Rattle.tile_plan.specs.Ranges.{range_of, tile_count};

use crew::{Gate, Work};
use cvl_base::{Memory, NoResources};
use least_boards::{Claim, LeastBoard, LeastSeat, Targets};
use std::alloc::Allocator;
use tile_plan::Plan;

/// Targets, lent to a board.
#[derive(Drop)]
pub(crate) struct LentTargets<'a, T: Targets> {
    pub(crate) targets: &'a T,
}

impl<'a, T: Targets> Targets for LentTargets<'a, T> {
    ghost targets = { λ lent. T.targets lent.targets.now };

    ghost slot_count = { λ lent. T.slot_count lent.targets.now };

    fn places(&self) -> u32 {
        self.targets.places()
    }

    fn slots(&self) -> u32 {
        self.targets.slots()
    }

    fn slot(&self, place: u32) -> Option<u32> {
        self.targets.slot(place)
    }

    fn is_clear(&self, from: u32, to: u32) -> bool {
        self.targets.is_clear(from, to)
    }
}

/// The work of all who race for the least places of targets: a board that gives the tiles of a plan, and lowers places in its
/// words.
#[derive(Drop)]
pub(crate) struct LeastWork<'a, T: Targets, A: Allocator> {
    pub(crate) board: LeastBoard<LentTargets<'a, T>, A>,
    pub(crate) targets: &'a T,
    pub(crate) plan: Plan,
}

impl<'a, T: Targets, A: Allocator> LeastWork<'a, T, A> {
    /// Whether the word of the only slot shows a lesser place than this one. A worker may then skip this place and all later
    /// ones.
    fn sees_lesser(&self, seat: &mut LeastSeat, place: u32) -> bool
        requires seat { IsLeastSeatOf self.now.board seat.old }
        requires over { IsOver self.now.board (T.targets self.now.targets.now) (T.slot_count self.now.targets.now) }
        ensures one { IsTrue result → self.now.board.slots ≡ 1 }
        ensures lesser { IsTrue result → seen_in 0 seat.new.pass < place }
        ensures none { seat.new.pass.lowered ≡ seat.old.pass.lowered }
        ensures gone_on { HasGoneOn seat.old seat.new }
        ensures same { IsLeastSeatOf self.now.board seat.new }
    {
        if self.targets.slots() != 1 {
            return false;
        }
        match self.board.least(seat, 0) {
            Some(least) => least < place,
            None => false,
        }
    }

    /// Tells the places of tile `t`: each that has a slot is lowered, or a lesser one of its slot is lowered or seen. Lowers only
    /// places of this tile, and no more of them than it has: none of an earlier tile is lowered again.
    #[tactic(auto, using(crate::proofs::Answering::lowered_none, crate::proofs::Answering::lowered_later))]
    fn tell_tile(&self, seat: &mut LeastSeat, t: u32)
        requires seat { IsLeastSeatOf self.now.board seat.old }
        requires over { IsOver self.now.board (T.targets self.now.targets.now) (T.slot_count self.now.targets.now) }
        requires cut { IsCutInto self.now.board self.now.plan }
        requires tile { t < tile_count self.now.plan.len self.now.plan.tile }
        ensures fact { HasAnswered self.now.board self.now.plan seat.new t }
        ensures own { HasLowered (range_of self.now.plan.len self.now.plan.tile t).0
            (range_of self.now.plan.len self.now.plan.tile t).1 seat.old.pass seat.new.pass }
        ensures gone_on { HasGoneOn seat.old seat.new }
        ensures same { IsLeastSeatOf self.now.board seat.new }
    {
        let (from, to) = self.plan.range(t);
        if !self.sees_lesser(seat, from) && !self.targets.is_clear(from, to) {
            self.lower_each(seat, from, to);
        }
    }

    /// Lowers each place from one up to another, without that, that has a slot. It may skip a place that follows one of the same
    /// slot.
    #[inline(never)]
    #[tactic(auto, using(crate::proofs::Answering::lowered_none, crate::proofs::Answering::lowered_on))]
    fn lower_each(&self, seat: &mut LeastSeat, from: u32, to: u32)
        requires seat { IsLeastSeatOf self.now.board seat.old }
        requires over { IsOver self.now.board (T.targets self.now.targets.now) (T.slot_count self.now.targets.now) }
        requires order { from ≤ to }
        requires within { to ≤ length self.now.board.targets }
        ensures own { HasLowered from to seat.old.pass seat.new.pass }
        ensures lowered { (place slot : ℕ) → from ≤ place → place < to →
            slice_index_or self.now.board.targets place None ≡ Some slot → lowered_in slot seat.new.pass ≤ place }
        ensures gone_on { HasGoneOn seat.old seat.new }
        ensures same { IsLeastSeatOf self.now.board seat.new }
    {
        let mut last = None;
        for place in from..to {
            let slot = self.targets.slot(place);
            last = self.lower_after(seat, last, slot, place);
        }
    }

    /// Lowers a place in its slot, if it has one, unless a place before it was the last one lowered and has that slot. Returns
    /// the slot of the last place lowered.
    #[tactic(auto, using(crate::proofs::Answering::lowered_none))]
    fn lower_after(
        &self,
        seat: &mut LeastSeat,
        last: Option<u32>,
        slot: Option<u32>,
        place: u32,
    ) -> Option<u32>
        requires seat { IsLeastSeatOf self.now.board seat.old }
        requires slot { IfSome slot (λ s. s < self.now.board.slots) }
        requires target { slot ≡ slice_index_or self.now.board.targets place None }
        requires last { IfSome last (λ s. lowered_in s seat.old.pass ≤ place) }
        ensures own { HasLowered place (place + 1) seat.old.pass seat.new.pass }
        ensures lowered { IfSome slot (λ s. lowered_in s seat.new.pass ≤ place) }
        ensures last { IfSome result (λ s. lowered_in s seat.new.pass ≤ place) }
        ensures gone_on { HasGoneOn seat.old seat.new }
        ensures same { IsLeastSeatOf self.now.board seat.new }
    {
        match slot {
            Some(slot) if last != Some(slot) => {
                self.board.lower(seat, slot, place);
                Some(slot)
            }
            _ => last,
        }
    }
}

impl<'a, T: Targets + Sync, A: Memory> Work for LeastWork<'a, T, A> {
    ghost use Rattle.std.specs.Prelude.{[]};

    type Seat = LeastSeat;

    type Item = ();

    ghost count = { λ work. tile_count work.plan.len work.plan.tile };

    ghost items = { λ work t. [] };

    ghost IsSeat = { λ work seat. IsLeastSeatOf work.board seat
        × IsOver work.board (T.targets work.targets.now) (T.slot_count work.targets.now)
        × IsCutInto work.board work.plan };

    ghost given = { λ seat. seat.pass.hand.given };

    ghost is_done = { λ seat. seat.is_done };

    ghost HasFact = { λ work seat t. HasAnswered work.board work.plan seat t };

    #[tactic(auto, using(crate::proofs::Answering::claim_keeps))]
    fn claim(&self, seat: &mut LeastSeat) -> Claim {
        self.board.claim(seat)
    }

    fn tile<B: Memory, G: Gate>(
        &self,
        alloc: B,
        seat: &mut LeastSeat,
        _worker: u32,
        t: u32,
        _gate: &G,
    ) -> Result<Vec<(), B>, NoResources> {
        self.tell_tile(seat, t);
        Ok(Vec::new(alloc))
    }
}
