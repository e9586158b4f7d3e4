//! The second walk of a permute: the elements of the senders, which several threads may write.

ghost use Rattle.std.specs.Prelude.{◌≡◌, ◌+◌, ◌≤◌, [], length, slice_get, unwrap_or};
ghost use Rattle.fresh.specs.Parts.{part};
ghost use Rattle.fresh.specs.Places.{stretch};
ghost use Rattle.permute_walks.specs.Before.{values_of};

use crate::before::Before;
use fresh::{Run, Writer};

/// The element at a place, if there is that place.
#[inline]
pub fn element_of<T: Copy>(source: &[T], place: usize) -> Option<T>
    ensures { result ≡ slice_get source.now place }
{
    if place < source.len() {
        Some(source[place])
    } else {
        None
    }
}

/// Writes the element of each sender, and for nobody what stood there before.
#[derive(Drop)]
pub struct Elements<'a, T> {
    /// The elements.
    pub source: &'a [T],
    /// The sender of each place, or nobody.
    pub senders: &'a [u32],
    /// What stands in each place before.
    pub before: Before<'a, T>,
    ghost as_long: { length senders.now ≡ length (values_of before) },
}

impl<'a, T: Copy> Writer<T> for Elements<'a, T> {
    ghost use Rattle.permute_walks.specs.Before.{written_of};
    ghost use Rattle.permute_walks.specs.Senders.{written_over};

    ghost whole = { λ w. written_over w.source.now w.senders.now (written_of w.before) };

    fn write(&self, run: Run<T>) -> Run<T>
        requires empty { run.items ≡ [] }
        requires within { run.first + run.room
            ≤ length (written_over self.now.source.now self.now.senders.now (written_of self.now.before)) }
        ensures { result ≡ stretch run.block run.first
            (part (written_over self.now.source.now self.now.senders.now (written_of self.now.before)) run.first run.room) 0 }
    {
        let source = self.source;
        match self.before {
            Before::Any(values) => match values.first() {
                Some(first) => {
                    let other = *first;
                    run.fill_by(
                        self.senders,
                        |sender: u32| -> T
                            ensures { result ≡ unwrap_or (slice_get source.entry.now sender) other }
                        { element_of(source, sender as usize).unwrap_or(other) },
                    )
                }
                None => run,
            },
            Before::Defaults(defaults) => run.fill_by_both(
                self.senders,
                defaults,
                |sender: u32, default: T| -> T
                    ensures { result ≡ unwrap_or (slice_get source.entry.now sender) default }
                { element_of(source, sender as usize).unwrap_or(default) },
            ),
        }
    }
}
