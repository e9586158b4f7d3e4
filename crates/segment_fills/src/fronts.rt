//! The items of a segment, of which eight are written at once if the segments are short and uneven.

ghost use Rattle.std.specs.Prelude.{◌≡◌, ◌+◌};

/// How many items are written at once. No branch depends on the length of a segment that has no more: what is written behind it
/// the segments that follow write over.
const AT_ONCE: usize = 8;

/// What a segment has at each of its places.
pub(crate) trait Items<T: Copy> {
    ghost use Rattle.std.specs.Prelude.{ℕ, ◌+◌, ◌≡◌};

    ghost at: { Self → ℕ → T };

    /// The item at place 0.
    fn first(&self) -> T
        ensures { result ≡ at self.now 0 };

    /// The item behind another one.
    fn after(&self, item: T) -> T
        ensures { (place : ℕ) → item ≡ at self.now place → result ≡ at self.now (place + 1) };
}

/// Copies of a value.
#[derive(Drop)]
pub(crate) struct Copies<T: Copy> {
    /// The value.
    pub(crate) value: T,
}

impl<T: Copy> Items<T> for Copies<T> {
    ghost at = { λ c place. c.value };

    #[inline(always)]
    fn first(&self) -> T {
        self.value
    }

    #[inline(always)]
    fn after(&self, item: T) -> T {
        item
    }
}

/// Numbers in equal steps, each wrapped to 32 bits.
#[derive(Drop)]
pub(crate) struct Steps {
    /// The number at place 0.
    pub(crate) init: i32,
    /// What the next one adds.
    pub(crate) stride: i32,
}

impl Steps {
    /// The numbers from `init` on in steps of `stride`.
    #[inline(always)]
    pub(crate) fn of(init: &i32, stride: &i32) -> Steps
        ensures init { result.init ≡ init.now }
        ensures stride { result.stride ≡ stride.now }
    {
        Steps {
            init: *init,
            stride: *stride,
        }
    }
}

impl Items<i32> for Steps {
    ghost use Rattle.std.specs.Prelude.{pos, ◌+ℤ◌, ◌*ℤ◌};
    ghost use Rattle.cvl_base.specs.Integers.{wrap};

    ghost at = { λ s place. wrap (s.init +ℤ pos place *ℤ s.stride) };

    #[inline(always)]
    fn first(&self) -> i32 {
        self.init
    }

    #[inline(always)]
    fn after(&self, item: i32) -> i32 {
        item.wrapping_add(self.stride)
    }
}

/// How the items of one more segment are written behind those of others.
pub(crate) trait Fronts {
    ghost use Rattle.std.specs.Prelude.{◌≡◌, ◌-◌, ◌++◌, ◌≤◌, length, map, take};
    ghost use Rattle.std.specs.List.{range_with_len};

    /// Writes the first items to the places of a room from `first` up to `end`; places behind `end` may change.
    fn write<T: Copy, S: Items<T>>(out: &mut [T], first: usize, end: usize, items: &S)
        requires in_order { first ≤ end }
        requires within { end ≤ length out.old }
        ensures as_long { length out.new ≡ length out.old }
        ensures front { take end out.new ≡ take first out.old ++ map (S.at items.now) (range_with_len 0 (end - first)) };
}

/// Item by item.
pub(crate) struct OneByOne;

impl Fronts for OneByOne {
    #[inline(always)]
    fn write<T: Copy, S: Items<T>>(out: &mut [T], first: usize, end: usize, items: &S) {
        let mut item = items.first();
        for place in first..end {
            out[place] = item;
            item = items.after(item);
        }
    }
}

/// Eight at once if there are no more.
pub(crate) struct EightAtOnce;

impl Fronts for EightAtOnce {
    #[inline(always)]
    fn write<T: Copy, S: Items<T>>(out: &mut [T], first: usize, end: usize, items: &S) {
        if end - first <= AT_ONCE && AT_ONCE <= out.len() - first {
            OneByOne::write(out, first, first + AT_ONCE, items);
        } else {
            OneByOne::write(out, first, end, items);
        }
    }
}
