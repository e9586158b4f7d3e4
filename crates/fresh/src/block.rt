//! The block of a vector, taken out of it as places and put back with its items.
ghost use Rattle.std.specs.Prelude.{◌≡◌, ℕ, ◌-◌, ◌^◌, ◌<◌, ◌≤◌, List, Some, None, ◌++◌, length, map, replicate};
ghost use Rattle.std.specs.Vec.{vec_len, vec_capacity, vec_allocator};
ghost use base.Fml.{ftrue};
ghost use denote.RawPtr.{Ptr};
ghost use Rattle.fresh.specs.Ownership.{deed_owns};
ghost use Rattle.fresh.specs.Places.{filled};

use crate::cells::{Base, Cells};
use std::alloc::Allocator;
use std::marker::{Model, PhantomData, Send, Sync};

/// The right to free the block of `len` places at `at`, and the duty to: it can't be dropped. It takes no space.
pub struct Deed<T, A: Allocator> {
    mark: PhantomData<*const (T, A)>,
    ghost at: { Ptr },
    ghost len: { ℕ },
    ghost alloc: { A },
    ghost small: { len < 2 ^ 63 },
}

impl<T, A: Allocator> Model for Deed<T, A> {
    ghost also_owns = { λ d. deed_owns T.row (A.dealloc_token d.alloc) d.at d.len };

    ghost also_shares = { λ _ _ _. ftrue };
}

unsafe impl<T, A: Allocator + Send> Send for Deed<T, A> {}

// A `&` to it holds nothing.
unsafe impl<T, A: Allocator> Sync for Deed<T, A> {}

/// The private fields of a `Vec`, in their order.
struct VecFields<T, A: Allocator> {
    ptr: *const T,
    len: usize,
    cap: usize,
    alloc: A,
}

/// Takes the block out of a vector, which keeps none. Its places begin with the vector's items, and the others are empty.
pub(crate) fn take_block<T, A: Allocator>(v: &mut Vec<T, A>) -> (Base<T>, Cells<T>, Deed<T, A>)
    ensures cells { (result.1.at ≡ result.0.ptr) × (result.1.from ≡ 0)
        × (result.1.slots ≡ filled v.old.items (vec_capacity v.old - vec_len v.old)) }
    ensures deed { (result.2.at ≡ result.0.ptr) × (result.2.len ≡ vec_capacity v.old) × (result.2.alloc ≡ vec_allocator v.old) }
    ensures left { (vec_capacity v.new ≡ 0) × (vec_allocator v.new ≡ vec_allocator v.old) }
{
    let fields = v as *mut Vec<T, A> as *mut VecFields<T, A>;
    let ptr = unsafe { (*fields).ptr };
    unsafe {
        (*fields).len = 0;
        (*fields).cap = 0;
    }
    let base = Base {
        ptr: ptr.cast_mut(),
    };
    (
        base,
        Cells { mark: PhantomData },
        Deed { mark: PhantomData },
    )
}

/// Gives a block to a vector without one. The first `len` of its `cap` places hold the items, and the others are empty.
pub(crate) fn give_block<T, A: Allocator>(
    v: &mut Vec<T, A>,
    base: Base<T>,
    len: usize,
    cap: usize,
    cells: Cells<T>,
    deed: Deed<T, A>,
)
    requires none { vec_capacity v.old ≡ 0 }
    requires block { (cells.at ≡ base.ptr) × (cells.from ≡ 0) × (deed.at ≡ base.ptr) × (deed.len ≡ cap)
        × (deed.alloc ≡ vec_allocator v.old) }
    requires full { (xs : List T) × (length xs ≡ len) × (len ≤ cap) × (cells.slots ≡ map Some xs ++ replicate (cap - len) None) }
    ensures items { cells.slots ≡ map Some v.new.items ++ replicate (cap - len) None }
    ensures long { (vec_len v.new ≡ len) × (vec_capacity v.new ≡ cap) × (vec_allocator v.new ≡ vec_allocator v.old) }
{
    let Cells { mark: _ } = cells;
    let Deed { mark: _ } = deed;
    let fields = v as *mut Vec<T, A> as *mut VecFields<T, A>;
    unsafe {
        (*fields).ptr = base.ptr.cast_const();
        (*fields).len = len;
        (*fields).cap = cap;
    }
}
