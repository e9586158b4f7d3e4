//! Statuses of the items of a monoid that has words, as words of 64 bits, and back.

ghost use Rattle.std.specs.Prelude.{◌≡◌, IsTrue};
ghost use Rattle.status_word.specs.Codings.{status_by, status_or_silent};
ghost use Rattle.status_word.specs.Locals.{is_item_status};
ghost use Rattle.status_word.specs.Words.{read_word, word_of};

use crate::status::Status;
use crate::word::{pack, unpack};
use cvl_base::Packed;
use cvl_base::monoid::know_words;

/// The word of a status of items. It takes no memory.
pub fn pack_status<M: Packed>(status: Status<M::Item>) -> u64
    requires { IsTrue (is_item_status M.is_item status) }
    ensures { result ≡ word_of (status_by M.to_word status) }
{
    know_words::<M>();
    match status {
        Status::Silent => pack(Status::Silent),
        Status::Sum(starts, value) => pack(Status::Sum(starts, M::to_word(value))),
        Status::Prefix(starts, value) => pack(Status::Prefix(starts, M::to_word(value))),
    }
}

/// The status of items that a word tells; a word that is no status's tells nothing. It takes no memory.
pub fn read_status<M: Packed>(word: u64) -> Status<M::Item>
    ensures { result ≡ status_by M.from_word (status_or_silent (read_word word)) }
{
    match unpack(word) {
        None | Some(Status::Silent) => Status::Silent,
        Some(Status::Sum(starts, value)) => Status::Sum(starts, M::from_word(value)),
        Some(Status::Prefix(starts, value)) => Status::Prefix(starts, M::from_word(value)),
    }
}
