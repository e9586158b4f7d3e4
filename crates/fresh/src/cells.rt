//! The places of a block: each is empty or holds a value, and belongs to one owner.
ghost use Rattle.std.specs.Prelude.{◌≡◌, ℕ, ◌+◌, ◌-◌, ◌<◌, ◌≤◌, List, Option, Some, None, ◌++◌, length, take, drop, get_or};
ghost use Rattle.std.specs.Prelude.{slice_set};
ghost use base.Fml.{ftrue};
ghost use denote.RawPtr.{Ptr};
ghost use Rattle.fresh.specs.Ownership.{cells_own};

use std::marker::{Model, PhantomData, Send, Sync};

/// Where a block begins. It owns nothing.
#[derive_where(Clone, Copy)]
pub struct Base<T> {
    pub(crate) ptr: *mut T,
}

unsafe impl<T> Send for Base<T> {}

unsafe impl<T> Sync for Base<T> {}

/// The owner of neighbouring places in a block. It takes no space. If dropped, it leaks what its places hold.
#[derive(Drop)]
pub struct Cells<T> {
    pub(crate) mark: PhantomData<*const T>,
    ghost at: { Ptr },
    ghost from: { ℕ },
    ghost slots: { List (Option T) },
}

impl<T> Model for Cells<T> {
    ghost also_owns = { λ c. cells_own T.row c.at c.from c.slots };

    ghost also_shares = { λ _ _ _. ftrue };
}

unsafe impl<T: Send> Send for Cells<T> {}

// A `&` to it holds nothing.
unsafe impl<T> Sync for Cells<T> {}

impl<T> Cells<T> {
    /// Writes the empty place with this index.
    pub(crate) fn write(&mut self, base: Base<T>, index: usize, item: T)
        requires { (base.ptr ≡ self.old.at) × (self.old.from ≤ index) × (index - self.old.from < length self.old.slots)
            × (get_or self.old.slots (index - self.old.from) None ≡ None) }
        ensures { (self.new.at ≡ self.old.at) × (self.new.from ≡ self.old.from)
            × (self.new.slots ≡ slice_set self.old.slots (index - self.old.from) (Some item)) }
    {
        unsafe { base.ptr.add(index).write(item) }
    }

    /// Takes the item out of the written place with this index, which is empty then.
    pub(crate) fn read(&mut self, base: Base<T>, index: usize) -> T
        requires { (base.ptr ≡ self.old.at) × (self.old.from ≤ index) × (index - self.old.from < length self.old.slots)
            × ((x : T) × (get_or self.old.slots (index - self.old.from) None ≡ Some x)) }
        ensures item { get_or self.old.slots (index - self.old.from) None ≡ Some result }
        ensures others { (self.new.at ≡ self.old.at) × (self.new.from ≡ self.old.from)
            × (self.new.slots ≡ slice_set self.old.slots (index - self.old.from) None) }
    {
        unsafe { base.ptr.add(index).read() }
    }

    /// The first `k` places, and the others.
    pub(crate) fn split(self, k: usize) -> (Cells<T>, Cells<T>)
        requires { k ≤ length self.slots }
        ensures first { (result.0.at ≡ self.at) × (result.0.from ≡ self.from) × (result.0.slots ≡ take k self.slots) }
        ensures second { (result.1.at ≡ self.at) × (result.1.from ≡ self.from + k) × (result.1.slots ≡ drop k self.slots) }
    {
        let Cells { mark: _ } = self;
        (Cells { mark: PhantomData }, Cells { mark: PhantomData })
    }

    /// The places of both; the others begin at the end of these.
    pub(crate) fn merge(self, next: Cells<T>) -> Cells<T>
        requires { (next.at ≡ self.at) × (next.from ≡ self.from + length self.slots) }
        ensures { (result.at ≡ self.at) × (result.from ≡ self.from) × (result.slots ≡ self.slots ++ next.slots) }
    {
        let Cells { mark: _ } = self;
        let Cells { mark: _ } = next;
        Cells { mark: PhantomData }
    }
}
