//! Runs written whole: from the numbers of their places or the elements of slices.
ghost use Rattle.std.specs.Prelude.{◌≡◌, ℕ, ◌+◌, ◌-◌, ◌^◌, ◌<◌, ◌≤◌, List, ◌++◌, length, map, slice_index_or};
ghost use Rattle.std.specs.List.{AllZip, zip};
ghost use Rattle.fresh.specs.Parts.{part};
ghost use Rattle.fresh.specs.Places.{stretch, with_items, GoWith};

use crate::run::Run;
use crate::sixteens::is_narrower;

impl<T> Run<T> {
    /// Writes each empty place from its number in the block: `f(place)`.
    pub fn fill<F: Fn(usize) -> T + Drop>(self, f: F) -> Run<T>
        requires { (place : ℕ) → self.first + length self.items ≤ place → place < self.first + length self.items + self.room
            → F.pre f place }
        ensures { (ys : List T) × GoWith (F.post f) (self.first + length self.items) self.room ys
            × (result ≡ stretch self.block self.first (self.items ++ ys) 0) }
    {
        let start = self.next_place();
        self.fill_numbered(start, f)
    }

    /// Writes each empty place by the item of its number, where the next one has the number `start`.
    pub(crate) fn fill_numbered<F: Fn(usize) -> T + Drop>(mut self, start: usize, f: F) -> Run<T>
        requires fits { start + self.room < 2 ^ 63 }
        requires callable { (k : ℕ) → start ≤ k → k < start + self.room → F.pre f k }
        ensures { (ys : List T) × GoWith (F.post f) start self.room ys × (result ≡ with_items self ys) }
    {
        for k in start..start + self.room() {
            self.push(f(k));
        }
        self
    }

    /// Writes the empty places from the elements of a slice, equal in number: `f(x)`.
    pub fn fill_from<X: Copy, F: Fn(X) -> T + Drop>(self, xs: &[X], f: F) -> Run<T>
        requires callable { F.IsAlwaysCallable f }
        requires as_long { length xs.now ≡ self.room }
        ensures each { (ys : List T) × AllZip (F.post f) xs.now ys
            × (result ≡ stretch self.block self.first (self.items ++ ys) 0) }
        ensures values { (h : X → T) → ((x : X) (y : T) → F.post f x y → y ≡ h x)
            → result ≡ stretch self.block self.first (self.items ++ map h xs.now) 0 }
    {
        if is_narrower::<T, X>() {
            self.fill_by_sixteens(
                |k: usize| -> T
                    requires callable { F.IsAlwaysCallable f }
                    requires within { k < length xs.now }
                    ensures { (x : X) → F.post f (slice_index_or xs.entry.now k x) result }
                { f(xs[k]) },
            )
        } else {
            self.fill_each(xs, f)
        }
    }

    /// The same, each item written before the next is made.
    fn fill_each<X: Copy, F: Fn(X) -> T + Drop>(mut self, xs: &[X], f: F) -> Run<T>
        requires callable { F.IsAlwaysCallable f }
        requires as_long { length xs.now ≡ self.room }
        ensures { (ys : List T) × AllZip (F.post f) xs.now ys
            × (result ≡ stretch self.block self.first (self.items ++ ys) 0) }
    {
        for x in xs {
            self.push(f(*x));
        }
        self
    }

    /// Writes each empty place from the element of a slice with its number: `f(xs[place])`.
    pub fn fill_by<X: Copy, F: Fn(X) -> T + Drop>(self, xs: &[X], f: F) -> Run<T>
        requires callable { F.IsAlwaysCallable f }
        requires within { self.first + length self.items + self.room ≤ length xs.now }
        ensures each { (ys : List T) × AllZip (F.post f) (part xs.now (self.first + length self.items) self.room) ys
            × (result ≡ stretch self.block self.first (self.items ++ ys) 0) }
        ensures values { (h : X → T) → ((x : X) (y : T) → F.post f x y → y ≡ h x)
            → result ≡ stretch self.block self.first
            (self.items ++ part (map h xs.now) (self.first + length self.items) self.room) 0 }
    {
        let (_, xs) = xs.split_at(self.next_place());
        let (xs, _) = xs.split_at(self.room());
        self.fill_from(xs, f)
    }

    /// Writes each empty place from the elements of two slices with its number: `f(xs[place], ys[place])`.
    pub fn fill_by_both<X: Copy, Y: Copy, F: Fn(X, Y) -> T + Drop>(
        self,
        xs: &[X],
        ys: &[Y],
        f: F,
    ) -> Run<T>
        requires callable { F.IsAlwaysCallable f }
        requires in_first { self.first + length self.items + self.room ≤ length xs.now }
        requires in_second { self.first + length self.items + self.room ≤ length ys.now }
        ensures { (h : X → Y → T) → ((x : X) (y : Y) (z : T) → F.post f x y z → z ≡ h x y)
            → result ≡ stretch self.block self.first
            (self.items ++ part (map (λ p. h p.0 p.1) (zip xs.now ys.now)) (self.first + length self.items) self.room) 0 }
    {
        let (_, xs) = xs.split_at(self.next_place());
        let (xs, _) = xs.split_at(self.room());
        let (_, ys) = ys.split_at(self.next_place());
        let (ys, _) = ys.split_at(self.room());
        self.fill_from_both(xs, ys, f)
    }

    /// Writes the empty places from the elements of two slices, equal in number.
    fn fill_from_both<X: Copy, Y: Copy, F: Fn(X, Y) -> T + Drop>(
        self,
        xs: &[X],
        ys: &[Y],
        f: F,
    ) -> Run<T>
        requires callable { F.IsAlwaysCallable f }
        requires as_long { (length xs.now ≡ self.room) × (length ys.now ≡ self.room) }
        ensures { (zs : List T) × AllZip (λ p. F.post f p.0 p.1) (zip xs.now ys.now) zs
            × (result ≡ stretch self.block self.first (self.items ++ zs) 0) }
    {
        if is_narrower::<T, X>() {
            self.fill_by_sixteens(
                |k: usize| -> T
                    requires callable { F.IsAlwaysCallable f }
                    requires within { (k < length xs.now) × (k < length ys.now) }
                    ensures { (x : X) (y : Y) → F.post f (slice_index_or xs.entry.now k x) (slice_index_or ys.entry.now k y)
                        result }
                { f(xs[k], ys[k]) },
            )
        } else {
            self.fill_each_from_both(xs, ys, f)
        }
    }

    /// The same, each item written before the next is made.
    fn fill_each_from_both<X: Copy, Y: Copy, F: Fn(X, Y) -> T + Drop>(
        mut self,
        xs: &[X],
        ys: &[Y],
        f: F,
    ) -> Run<T>
        requires callable { F.IsAlwaysCallable f }
        requires as_long { (length xs.now ≡ self.room) × (length ys.now ≡ self.room) }
        ensures { (zs : List T) × AllZip (λ p. F.post f p.0 p.1) (zip xs.now ys.now) zs
            × (result ≡ stretch self.block self.first (self.items ++ zs) 0) }
    {
        for k in 0..xs.len() {
            self.push(f(xs[k], ys[k]));
        }
        self
    }
}

impl<T: Copy> Run<T> {
    /// Copies the elements of a slice, at most as many as there is room for, to the next places.
    pub fn extend_from_slice(mut self, items: &[T]) -> Run<T>
        requires { length items.now ≤ self.room }
        ensures { result ≡ with_items self items.now }
    {
        for item in items {
            self.push(*item);
        }
        self
    }
}
