//! The race for the senders: a slot for each place of the result.

ghost use Rattle.std.specs.Prelude.{◌≡◌, ◌≤◌, length, map, unwrap_or, IfOk, Ok, vec_len};
ghost use Rattle.cvl_base.specs.Gives.{Gives, unless};
ghost use Rattle.cvl_base.specs.Limits.{most_elements};
ghost use Rattle.cvl_base.specs.Permutes.{first_fault, wrongs};
ghost use Rattle.permute_walks.specs.Senders.{nobody, senders_of};

use crate::bad_places::{Faulty, check_raced};
use boards::{Leasts, Targets};
use crew::Gate;
use cvl_base::limits::MOST_ELEMENTS;
use cvl_base::{FaultNo, Memory, NoResources, Refused, place_among};
use least_races::race_for_leasts;
use permute_walks::{Destinations, NOBODY};
use sharing::Pace;
use std::thread::Threads;

/// The places that take part, each in the slot that its index names, if it is one.
#[derive(Drop)]
struct Slots<'a, D: Destinations> {
    destinations: &'a D,
    places: u32,
    ghost few: { places ≤ most_elements },
}

impl<'a, D: Destinations> Targets for Slots<'a, D> {
    ghost use Rattle.permute_races.specs.Races.{slots_of};

    ghost targets = { λ s. slots_of s.places (D.destinations s.destinations.now) };

    ghost slot_count = { λ s. s.places };

    fn places(&self) -> u32 {
        self.destinations.count().min(MOST_ELEMENTS) as u32
    }

    fn slots(&self) -> u32 {
        self.places
    }

    fn slot(&self, place: u32) -> Option<u32> {
        let (index, takes_part) = self.destinations.at(place as usize);
        if !takes_part {
            return None;
        }
        match place_among(self.places as usize, index) {
            Some(destination) => Some(destination as u32),
            None => None,
        }
    }
}

/// The places that take part. One is bad if its index is no place of the result, or another place is sent there.
#[derive(Drop)]
struct Sent<'a, D: Destinations> {
    destinations: &'a D,
    senders: &'a [u32],
}

impl<'a, D: Destinations> Faulty for Sent<'a, D> {
    ghost use Rattle.permute_races.specs.Races.{wrongs_beside};

    ghost wrongs = { λ s. wrongs_beside s.senders.now (D.destinations s.destinations.now) };

    fn count(&self) -> usize {
        self.destinations.count()
    }

    fn wrong(&self, place: usize) -> Option<FaultNo> {
        let (index, takes_part) = self.destinations.at(place);
        if !takes_part {
            return None;
        }
        let Some(destination) = place_among(self.senders.len(), index) else {
            return Some(FaultNo::IndexOutOfRange);
        };
        if self.senders[destination] as usize == place {
            None
        } else {
            Some(FaultNo::IndexRepeated)
        }
    }
}

/// The first place of each slot, as a sender.
fn senders_told<A: Memory>(
    alloc: A,
    leasts: &Leasts<A>,
    places: u32,
) -> Result<Vec<u32, A>, NoResources>
    requires { length leasts.now ≡ places }
    ensures are { IfOk result (λ v. v.items ≡ map (λ least. unwrap_or least nobody) leasts.now) }
    ensures as_long { IfOk result (λ v. vec_len v ≡ places) }
{
    let mut senders = Vec::with_capacity(alloc, places as usize)?;
    for slot in 0..places {
        senders.push_reserved(leasts.get(slot).unwrap_or(NOBODY));
    }
    Ok(senders)
}

/// The sender of each place of the result. Workers race on a first board for the first place that is sent there, and on a second
/// one for the first bad place, which gives the fault. Each worker passes the gate at `Claimed` and `Finished` of each of its
/// tiles.
pub fn senders_raced<R: Threads + Sync, A: Memory, D: Destinations + Sync, G: Gate>(
    rt: &R,
    alloc: A,
    pace: Pace,
    places: usize,
    destinations: &D,
    gate: &G,
) -> Result<Vec<u32, A>, Refused>
    requires few { length (D.destinations destinations.now) ≤ most_elements }
    requires few_places { places ≤ most_elements }
    ensures senders { Gives (λ v. v.items) result (unless (first_fault 0 (wrongs places (D.destinations destinations.now)))
        (Ok (senders_of 0 (D.destinations destinations.now) places))) }
    ensures as_long { IfOk result (λ v. vec_len v ≡ places) }
{
    let slots = Slots {
        destinations,
        places: places as u32,
    };
    let leasts = race_for_leasts(rt, alloc, pace, &slots, gate)?;
    let senders = senders_told(alloc, &leasts, slots.places)?;
    let sent = Sent {
        destinations,
        senders: &senders,
    };
    check_raced(rt, alloc, pace, &sent, gate)?;
    Ok(senders)
}
