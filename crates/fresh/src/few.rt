//! Lists of a few items, written eight at a time.
//!
//! A loop over two or three items costs more than the items, since the processor guesses its end wrong where lengths change.
//! Eight items at once are a few wide stores, and those that are too many are taken back.
ghost use Rattle.std.specs.Prelude.{◌≡◌, ◌+◌, ◌-◌, ◌≤◌, true, ◌++◌, length, replicate, take};
ghost use Rattle.fresh.specs.Places.{stretch};

use crate::run::Run;
use crate::sixteens::item_bytes;

/// How many items are written at once.
pub const FEW: usize = 8;

/// Items of fewer bytes are written one by one, which takes less time.
const LEAST_BYTES: usize = 4;

impl<T: Copy> Run<T> {
    /// Whether to write `count` items as the first of [`FEW`]: they are no more, and there is room for that many. Nothing is
    /// claimed if not, which only decides how fast a list is written.
    pub fn takes_few(&self, count: usize) -> bool
        ensures { result ≡ true → (count ≤ 8) × (8 ≤ self.now.room) }
    {
        count <= FEW && self.room() >= FEW && item_bytes::<T>() >= LEAST_BYTES
    }

    /// Writes the next `count` places by copies of an item, which are often few.
    pub fn push_few_copies(self, item: T, count: usize) -> Run<T>
        requires { count ≤ self.room }
        ensures { result ≡ stretch self.block self.first (self.items ++ replicate count item) (self.room - count) }
    {
        if !self.takes_few(count) {
            return self.push_copies(item, count);
        }
        self.push_copies(item, FEW).without_last(FEW - count)
    }

    /// Takes back the last `count` items, whose places are empty then.
    pub fn without_last(mut self, count: usize) -> Run<T>
        requires { count ≤ length self.items }
        ensures { result ≡ stretch self.block self.first (take (length self.items - count) self.items) (self.room + count) }
    {
        for _ in 0..count {
            self.pop();
        }
        self
    }
}
