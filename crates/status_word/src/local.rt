//! The state of a worker, its step, and the state that follows.

ghost use Rattle.std.specs.Prelude.{◌≡◌, IsTrue};
ghost use Rattle.status_word.specs.Locals.{action_of, added_up_to, after_look, holds_item, is_item_status, next_of, tells_item};
ghost use Rattle.cvl_base.specs.SegmentMonoid.{is_seg_item};

use crate::action::{Action, Answer};
use crate::status::Status;
use cvl_base::{Monoid, Seg};

/// The state of a worker of a single-pass scan. Tiles count from 0; a sum is a pair, as in [`Status`].
///
/// Source: Merrill and Garland's decoupled look-back; that a worker adds up a silent tile, instead of waiting for it, is this
/// library's profile.
#[derive(Clone, Copy, Debug)]
pub enum Local<T> {
    /// It has no tile, and claims one.
    Ready,
    /// It has this tile, and tells its sum.
    Summing(u32),
    /// It has the first tile, and looks at the second; the sum is that of the tiles between the two.
    Looking(u32, u32, (bool, T)),
    /// The same if the second tile was silent: it tells that tile's sum.
    Helping(u32, u32, (bool, T)),
    /// It has this tile, knows the sum of the tiles before it, and tells the tile's prefix.
    Publishing(u32, (bool, T)),
    /// It was told that no tile is left.
    Stopped,
}

impl<T: Copy> Local<T> {
    /// The step of a worker in this state; none if it has stopped. It takes no memory.
    pub fn action(&self) -> Option<Action<T>>
        ensures { result ≡ action_of self.now }
    {
        match *self {
            Local::Ready => Some(Action::Claim),
            Local::Summing(tile) => Some(Action::TellSum(tile)),
            Local::Looking(_, at, _) => Some(Action::Look(at)),
            Local::Helping(_, at, _) => Some(Action::TellSum(at)),
            Local::Publishing(tile, before) => Some(Action::TellPrefix(tile, before)),
            Local::Stopped => None,
        }
    }
}

/// The state that follows when the step of `local` is answered by `answer`; an answer to another step changes nothing.
/// The values of both must be items. It takes no memory.
pub fn next<M: Monoid>(local: Local<M::Item>, answer: Answer<M::Item>) -> Local<M::Item>
    requires held { IsTrue (holds_item M.is_item local) }
    requires told { IsTrue (tells_item M.is_item answer) }
    ensures { result ≡ next_of M.join M.unit local answer }
{
    match (local, answer) {
        (Local::Ready, Answer::Tile(tile)) => Local::Summing(tile),
        (Local::Ready, Answer::Done) => Local::Stopped,
        (Local::Summing(tile), Answer::Told(_)) => added_up::<M>(tile, tile, (false, M::unit())),
        (Local::Looking(tile, at, after), Answer::Saw(status)) => {
            after_seeing::<M>(tile, at, after, status)
        }
        (Local::Helping(tile, at, after), Answer::Told(sum)) => {
            added_up::<M>(tile, at, Seg::<M>::join(sum, after))
        }
        (Local::Publishing(_, _), Answer::Told(_)) => Local::Ready,
        (local, _) => local,
    }
}

/// The state that follows if the tiles from `at` to before `tile` are added up to `sum`.
fn added_up<M: Monoid>(tile: u32, at: u32, sum: (bool, M::Item)) -> Local<M::Item>
    ensures { result ≡ added_up_to tile at sum }
{
    if at == 0 {
        Local::Publishing(tile, sum)
    } else {
        Local::Looking(tile, at - 1, sum)
    }
}

/// The state that follows if `status` was seen of the tile `at`, and `after` is the sum of the tiles after it.
fn after_seeing<M: Monoid>(
    tile: u32,
    at: u32,
    after: (bool, M::Item),
    status: Status<M::Item>,
) -> Local<M::Item>
    requires held { IsTrue (is_seg_item M.is_item after) }
    requires seen { IsTrue (is_item_status M.is_item status) }
    ensures { result ≡ after_look M.join tile at after status }
{
    match status {
        Status::Silent => Local::Helping(tile, at, after),
        Status::Sum(starts, value) => {
            added_up::<M>(tile, at, Seg::<M>::join((starts, value), after))
        }
        Status::Prefix(starts, value) => {
            Local::Publishing(tile, Seg::<M>::join((starts, value), after))
        }
    }
}
