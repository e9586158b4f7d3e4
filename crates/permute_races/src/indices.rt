//! The race of a back permute for its first bad index.

ghost use Rattle.std.specs.Prelude.{◌≤◌, length, Ok};
ghost use Rattle.cvl_base.specs.Gives.{Gives, unless};
ghost use Rattle.cvl_base.specs.Limits.{most_elements};
ghost use Rattle.permute_walks.specs.Indices.{first_outside};

use crate::bad_places::{Faulty, check_raced};
use crew::Gate;
use cvl_base::{FaultNo, Memory, Refused, place_among};
use sharing::Pace;
use std::thread::Threads;

/// Indices; one outside the places is bad.
#[derive(Drop)]
struct Indices<'a> {
    index: &'a [i32],
    places: usize,
}

impl<'a> Faulty for Indices<'a> {
    ghost use Rattle.std.specs.Prelude.{map};
    ghost use Rattle.permute_walks.specs.Indices.{outside};

    ghost wrongs = { λ i. map (outside i.places) i.index.now };

    fn count(&self) -> usize {
        self.index.len()
    }

    fn wrong(&self, place: usize) -> Option<FaultNo> {
        match place_among(self.places, &self.index[place]) {
            Some(_) => None,
            None => Some(FaultNo::IndexOutOfRange),
        }
    }
}

/// `IndexOutOfRange` at the first place whose index is none of `places` places. Workers race for it; each passes the gate at
/// `Claimed` and `Finished` of each of its tiles.
pub fn check_indices_raced<R: Threads + Sync, A: Memory, G: Gate>(
    rt: &R,
    alloc: A,
    pace: Pace,
    index: &[i32],
    places: usize,
    gate: &G,
) -> Result<(), Refused>
    requires { length index.now ≤ most_elements }
    ensures { Gives (λ u. u) result (unless (first_outside 0 places index.now) (Ok tt)) }
{
    check_raced(rt, alloc, pace, &Indices { index, places }, gate)
}
