//! What one step of a worker reads and writes.

ghost use Rattle.std.specs.Prelude.{◌≡◌, ◌<◌, ◌^◌, max, length, slice_index, slice_set};
ghost use Rattle.status_word.specs.Codings.{coding};
ghost use Rattle.cvl_base.specs.TileSums.{own_sum};
ghost use Rattle.status_word.specs.Reached.{CanAnswer, CanTell};
ghost use Rattle.status_word.specs.Worlds.{answer_of, claims_after as claims_then, words_after};

use crate::action::{Action, Answer};
use crate::items::{pack_status, read_status};
use crate::status::Status;
use cvl_base::monoid::know_laws;
use cvl_base::{Memory, Monoid, Packed, Seg};

/// The answer to a step, from the sums of the tiles, the claim word and the words.
pub(crate) fn answer_to<M: Packed>(
    sums: &[(bool, M::Item)],
    claims: u64,
    words: &[u64],
    action: Action<M::Item>,
) -> Answer<M::Item>
    requires { CanAnswer sums.now words.now action }
    ensures { result
        ≡ answer_of (coding M.Packed) sums.now claims words.now action }
{
    match action {
        Action::Claim => {
            if claims < sums.len() as u64 {
                Answer::Tile(claims as u32)
            } else {
                Answer::Done
            }
        }
        Action::Look(at) => Answer::Saw(read_status::<M>(words[at as usize])),
        Action::TellSum(tile) => Answer::Told(sum_of_tile::<M>(sums, tile)),
        Action::TellPrefix(tile, _) => Answer::Told(sum_of_tile::<M>(sums, tile)),
    }
}

/// The claim word after a step.
pub(crate) fn claims_after<T: Copy>(claims: u64, action: Action<T>) -> u64
    requires { claims < 2 ^ 63 }
    ensures { result ≡ claims_then claims action }
{
    match action {
        Action::Claim => claims + 1,
        _ => claims,
    }
}

/// A step's word is written: both tells leave the greater of the word that is there and the word that is told.
pub(crate) fn write_word<M: Packed, A: Memory>(
    sums: &[(bool, M::Item)],
    words: &mut Vec<u64, A>,
    action: Action<M::Item>,
)
    requires { CanTell M.is_item (coding M.Packed)
        sums.now words.old.items action }
    ensures { words.new.items
        ≡ words_after (coding M.Packed) sums.now words.old.items action }
{
    know_laws::<Seg<M>>();
    match action {
        Action::TellSum(tile) => {
            let sum = sum_of_tile::<M>(sums, tile);
            raise(
                words,
                tile as usize,
                pack_status::<M>(Status::Sum(sum.0, sum.1)),
            );
        }
        Action::TellPrefix(tile, before) => {
            let sum = Seg::<M>::join(before, sum_of_tile::<M>(sums, tile));
            raise(
                words,
                tile as usize,
                pack_status::<M>(Status::Prefix(sum.0, sum.1)),
            );
        }
        _ => {}
    }
}

/// The sum of a tile.
fn sum_of_tile<M: Monoid>(sums: &[(bool, M::Item)], tile: u32) -> (bool, M::Item)
    requires { tile < length sums.now }
    ensures { result ≡ own_sum M.unit sums.now tile }
{
    sums[tile as usize]
}

/// A word becomes the greater of itself and another.
fn raise<A: Memory>(words: &mut Vec<u64, A>, at: usize, word: u64)
    requires { at < length words.old.items }
    ensures { words.new.items
        ≡ slice_set words.old.items at (max (slice_index words.old.items at) word) }
{
    let greater = words[at].max(word);
    words[at] = greater;
}
