//! Vectors of elements within the limit.

ghost use Rattle.std.specs.Prelude.{◌≡◌, ◌≤◌, ◌==◌, length, vec_len};
ghost use Rattle.cvl_base.specs.Limits.{most_elements};

use std::alloc::Allocator;
use std::marker::Model;

/// A vector of at most 4,194,304 elements. Its model is the list of its elements. It is made from a `Vec` and gives it back
/// without memory.
#[derive(Drop)]
#[derive_where(Debug; T, A)]
pub struct Elements<T, A: Allocator> {
    items: Vec<T, A>,
}

impl<T, A: Allocator> Model for Elements<T, A> {
    ghost use Rattle.std.specs.Prelude.{◌≤◌, List, length};
    ghost use Rattle.cvl_base.specs.Limits.{most_elements};

    ghost Value = { List T };

    ghost view = { λ e. e.items.items };

    ghost invariant = { λ e. length e.items.items ≤ most_elements };
}

/// A vector of integers.
pub type Ints<A> = Elements<i32, A>;

/// A vector of booleans.
pub type Bools<A> = Elements<bool, A>;

impl<T, A: Allocator> Elements<T, A> {
    /// The elements of a `Vec` that has at most 4,194,304.
    pub fn from_vec(items: Vec<T, A>) -> Elements<T, A>
        requires { vec_len items ≤ most_elements }
        ensures { result ≡ items.items }
    {
        Elements { items }
    }

    /// The elements as a `Vec`.
    pub fn into_vec(self) -> Vec<T, A>
        ensures value { result.items ≡ self }
        ensures in_limit { vec_len result ≤ most_elements }
    {
        self.items
    }

    /// The elements.
    pub fn as_slice(&self) -> &[T]
        ensures value { result.now ≡ self.now }
        ensures in_limit { length result.now ≤ most_elements }
    {
        self.items.as_slice()
    }

    /// How many elements there are.
    pub fn len(&self) -> usize
        ensures value { result ≡ length self.now }
        ensures in_limit { result ≤ most_elements }
    {
        self.items.len()
    }

    /// Whether there is no element.
    pub fn is_empty(&self) -> bool
        ensures { result ≡ (length self.now == 0) }
    {
        self.items.is_empty()
    }
}
