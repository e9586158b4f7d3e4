//! The race for the first bad place.

ghost use Rattle.std.specs.Prelude.{◌≡◌, ◌<◌, ◌≤◌, List, length, Ok, Option, None, slice_index_or};
ghost use Rattle.cvl_base.specs.declared.fault.FaultNo.{FaultNo};
ghost use Rattle.cvl_base.specs.Gives.{Gives, unless};
ghost use Rattle.cvl_base.specs.Limits.{most_elements};
ghost use Rattle.cvl_base.specs.Permutes.{first_fault};

use boards::Targets;
use crew::Gate;
use cvl_base::limits::MOST_ELEMENTS;
use cvl_base::{Fault, FaultNo, Memory, Refused};
use least_races::race_for_least;
use sharing::Pace;
use std::thread::Threads;

/// Places, counted from 0, some of which are bad.
pub(crate) trait Faulty: Drop {
    ghost wrongs: { Self → List (Option FaultNo) };

    /// How many places there are.
    fn count(&self) -> usize
        ensures { result ≡ length (wrongs self.now) };

    /// What is wrong with a place. It takes no memory.
    fn wrong(&self, place: usize) -> Option<FaultNo>
        requires { place < length (wrongs self.now) }
        ensures { result ≡ slice_index_or (wrongs self.now) place None };
}

/// The bad places, as a board sees them: all in one slot.
#[derive(Drop)]
struct BadPlaces<'a, F: Faulty> {
    faulty: &'a F,
}

impl<'a, F: Faulty> Targets for BadPlaces<'a, F> {
    ghost use Rattle.permute_races.specs.Races.{bad_slots};

    ghost targets = { λ b. bad_slots (F.wrongs b.faulty.now) };

    ghost slot_count = { λ b. 1 };

    fn places(&self) -> u32 {
        self.faulty.count().min(MOST_ELEMENTS) as u32
    }

    fn slots(&self) -> u32 {
        1
    }

    fn slot(&self, place: u32) -> Option<u32> {
        match self.faulty.wrong(place as usize) {
            Some(_) => Some(0),
            None => None,
        }
    }
}

/// The fault of the first bad place, for which workers race over one slot.
pub(crate) fn check_raced<R: Threads + Sync, A: Memory, F: Faulty + Sync, G: Gate>(
    rt: &R,
    alloc: A,
    pace: Pace,
    faulty: &F,
    gate: &G,
) -> Result<(), Refused>
    requires { length (F.wrongs faulty.now) ≤ most_elements }
    ensures { Gives (λ u. u) result (unless (first_fault 0 (F.wrongs faulty.now)) (Ok tt)) }
{
    let Some(place) = race_for_least(rt, alloc, pace, &BadPlaces { faulty }, gate)? else {
        return Ok(());
    };
    match faulty.wrong(place as usize) {
        Some(number) => Err(Refused::Fault(Fault::at(number, place))),
        None => Ok(()),
    }
}
