//! The first walk of a permute, which finds the sender of each place: on the calling thread, or by workers who race.

ghost use Rattle.std.specs.Prelude.{◌≡◌, ◌≤◌, IfOk, IfSome, Ok, length, vec_len};
ghost use Rattle.cvl_base.specs.Gives.{Gives, unless};
ghost use Rattle.cvl_base.specs.Limits.{most_elements, most_places};
ghost use Rattle.cvl_base.specs.Permutes.{first_fault, wrongs};
ghost use Rattle.permute_walks.specs.Senders.{senders_of};

use crew::Gate;
use cvl_base::{Memory, Refused};
use permute_races::senders_raced;
use permute_walks::{Destinations, NOBODY, send_places};
use sharing::Pace;
use std::thread::Threads;

/// The sender of each place of a flat result.
pub(crate) fn senders_alone<A: Memory, D: Destinations>(
    alloc: A,
    places: usize,
    destinations: &D,
) -> Result<Vec<u32, A>, Refused>
    requires few { length (D.destinations destinations.now) ≤ most_places }
    ensures senders { Gives (λ v. v.items) result (unless (first_fault 0 (wrongs places (D.destinations destinations.now)))
        (Ok (senders_of 0 (D.destinations destinations.now) places))) }
    ensures as_long { IfOk result (λ v. vec_len v ≡ places) }
{
    let mut senders = vec![in alloc; NOBODY; places]?;
    send_places(&mut senders, 0, destinations)?;
    Ok(senders)
}

/// The sender of each of `places` places, found by workers who race at the pace, or else by this thread.
pub(crate) fn senders_to<R: Threads + Sync, A: Memory, D: Destinations + Sync, G: Gate>(
    rt: &R,
    alloc: A,
    pace: Option<Pace>,
    places: usize,
    destinations: &D,
    gate: &G,
) -> Result<Vec<u32, A>, Refused>
    requires few { length (D.destinations destinations.now) ≤ most_elements }
    requires few_places { IfSome pace (λ _. places ≤ most_elements) }
    ensures senders { Gives (λ v. v.items) result (unless (first_fault 0 (wrongs places (D.destinations destinations.now)))
        (Ok (senders_of 0 (D.destinations destinations.now) places))) }
    ensures as_long { IfOk result (λ v. vec_len v ≡ places) }
{
    match pace {
        Some(pace) => senders_raced(rt, alloc, pace, places, destinations, gate),
        None => senders_alone(alloc, places, destinations),
    }
}
