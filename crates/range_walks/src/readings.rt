//! How an element is read as an item of a monoid, so that no vector of the items has to be made.

ghost use Rattle.std.specs.Prelude.{◌≡◌};

/// A rule by which elements are read as items.
pub trait Reading<X, Item> {
    ghost item: { X → Item };

    /// The item that an element is read as.
    fn item(x: X) -> Item
        ensures { result ≡ item x };
}

/// The rule by which an item is read as itself.
pub struct Itself;

impl<Item> Reading<Item, Item> for Itself {
    ghost item = { λ x. x };

    fn item(x: Item) -> Item {
        x
    }
}
