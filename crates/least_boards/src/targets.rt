//! The slots of places, as a least board sees them.

ghost use Rattle.std.specs.Prelude.{◌≡◌, ◌<◌, ◌≤◌, ℕ, List, Option, None, IfSome, IsTrue, length, slice_index_or};
ghost use Rattle.cvl_base.specs.Limits.{most_elements};

/// Places, counted from 0, some of which have a slot: a least board finds the least place of each slot.
pub trait Targets: Drop {
    ghost targets: { Self → List (Option ℕ) };

    ghost slot_count: { Self → ℕ };

    /// How many places there are, at most 4,194,304.
    fn places(&self) -> u32
        ensures count { result ≡ length (targets self.now) }
        ensures few { length (targets self.now) ≤ most_elements };

    /// How many slots there are, at most 4,194,304. They count from 0.
    fn slots(&self) -> u32
        ensures count { result ≡ slot_count self.now }
        ensures few { slot_count self.now ≤ most_elements };

    /// The slot of a place, or none if it is no target. It takes no memory.
    fn slot(&self, place: u32) -> Option<u32>
        requires { place < length (targets self.now) }
        ensures value { result ≡ slice_index_or (targets self.now) place None }
        ensures within { IfSome result (λ s. s < slot_count self.now) };

    /// Whether it is known at once that no place from one up to another, without that, is a target. The answer false is always
    /// right: the worker then asks for the slot of each. It takes no memory.
    fn is_clear(&self, from: u32, to: u32) -> bool
        requires { to ≤ length (targets self.now) }
        ensures { IsTrue result → (place : ℕ) → from ≤ place → place < to → slice_index_or (targets self.now) place None ≡ None }
    {
        false
    }
}
