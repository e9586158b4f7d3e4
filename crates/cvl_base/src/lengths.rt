//! The lengths of a descriptor.

ghost use Rattle.std.specs.Prelude.{◌≡◌, ◌≤◌, pos, map, sum, unsigned_abs, length};
ghost use Rattle.cvl_base.specs.Limits.{most_elements};
ghost use Rattle.cvl_base.specs.Descriptors.{AreLengths};

use std::alloc::Allocator;
use std::marker::Model;

/// The lengths of a descriptor's segments, none negative, at most 4,194,304 of them and with a total of at most 4,194,304. Their
/// model is the list of the lengths. They are made from a `Vec` and give it back without memory.
#[derive(Drop)]
#[derive_where(Debug; A)]
pub struct Lengths<A: Allocator> {
    items: Vec<i32, A>,
}

impl<A: Allocator> Model for Lengths<A> {
    ghost use Rattle.std.specs.Prelude.{ℕ, List, map, unsigned_abs};
    ghost use Rattle.cvl_base.specs.Descriptors.{AreLengths};

    ghost Value = { List ℕ };

    ghost view = { λ l. map unsigned_abs l.items.items };

    ghost invariant = { λ l. AreLengths l.items.items };
}

impl<A: Allocator> Lengths<A> {
    /// The lengths in a `Vec` that has at most 4,194,304 numbers, none of them negative, and whose total is at most 4,194,304.
    pub fn from_vec(items: Vec<i32, A>) -> Lengths<A>
        requires { AreLengths items.items }
        ensures { result ≡ map unsigned_abs items.items }
    {
        Lengths { items }
    }

    /// The lengths as a `Vec`.
    pub fn into_vec(self) -> Vec<i32, A>
        ensures value { result.items ≡ map pos self }
        ensures lengths { AreLengths result.items }
    {
        self.items
    }

    /// The lengths.
    pub fn as_slice(&self) -> &[i32]
        ensures value { result.now ≡ map pos self.now }
        ensures lengths { AreLengths result.now }
        ensures total { sum self.now ≤ most_elements }
        ensures few { length self.now ≤ most_elements }
    {
        self.items.as_slice()
    }
}
