//! Places written sixteen at a time.
//!
//! The compiler doesn't know that a run lies apart from what its items are made of. A loop that writes each item before it makes
//! the next becomes slow vector code if the items are narrower than what they are made of, as the booleans of comparisons are. If
//! sixteen are made before the first of them is written, the code takes about half the time.
ghost use Rattle.std.specs.Prelude.{◌≡◌, ℕ, ◌+◌, ◌-◌, ◌^◌, ◌<◌, ◌≤◌, List, [], ◌∷◌, ◌++◌, length};
ghost use Rattle.std.specs.Mem.{type_size};
ghost use prog.Memory.{capped};
ghost use Rattle.fresh.specs.Places.{with_items, GoWith};

use crate::run::Run;
use std::mem::size_of;

/// How many bytes an item of this type takes.
pub(crate) fn item_bytes<T>() -> usize
    ensures { result ≡ capped (type_size T.row) }
{
    size_of::<T>()
}

/// Whether items of the first type take fewer bytes than those of the second.
pub(crate) fn is_narrower<T, X>() -> bool {
    item_bytes::<T>() < item_bytes::<X>()
}

/// The items of four numbers from one on.
fn four<T, F: Fn(usize) -> T + Drop>(f: &F, start: usize) -> (T, T, T, T)
    requires fits { start + 4 < 2 ^ 63 }
    requires callable { (k : ℕ) → start ≤ k → k < start + 4 → F.pre f.now k }
    ensures { GoWith (F.post f.now) start 4 (result.0 ∷ result.1 ∷ result.2 ∷ result.3 ∷ []) }
{
    (f(start), f(start + 1), f(start + 2), f(start + 3))
}

impl<T> Run<T> {
    /// Writes the next four places.
    fn push_four(&mut self, items: (T, T, T, T))
        requires { 4 ≤ self.old.room }
        ensures { self.new ≡ with_items self.old (items.0 ∷ items.1 ∷ items.2 ∷ items.3 ∷ []) }
    {
        let (first, second, third, fourth) = items;
        self.push(first);
        self.push(second);
        self.push(third);
        self.push(fourth);
    }

    /// Writes the next sixteen places by the items of as many numbers from one on.
    fn push_sixteen<F: Fn(usize) -> T + Drop>(&mut self, f: &F, start: usize)
        requires room { 16 ≤ self.old.room }
        requires fits { start + 16 < 2 ^ 63 }
        requires callable { (k : ℕ) → start ≤ k → k < start + 16 → F.pre f.now k }
        ensures { (ys : List T) × GoWith (F.post f.now) start 16 ys × (self.new ≡ with_items self.old ys) }
    {
        let first = four(f, start);
        let second = four(f, start + 4);
        let third = four(f, start + 8);
        let fourth = four(f, start + 12);
        self.push_four(first);
        self.push_four(second);
        self.push_four(third);
        self.push_four(fourth);
    }

    /// Writes each empty place by the item of its number among them: `f(0)`, `f(1)` and so on.
    pub(crate) fn fill_by_sixteens<F: Fn(usize) -> T + Drop>(mut self, f: F) -> Run<T>
        requires { (k : ℕ) → k < self.room → F.pre f k }
        ensures { (ys : List T) × GoWith (F.post f) 0 self.room ys × (result ≡ with_items self ys) }
    {
        let mut left = self.room();
        let mut done = 0;
        while left >= 16 {
            self.push_sixteen(&f, done);
            done += 16;
            left -= 16;
        }
        self.fill_numbered(done, f)
    }
}
