//! Associative operators with a unit, for scans and reduces.

ghost use Rattle.std.specs.Prelude.{◌≡◌, Bool, IsTrue, ℤ};
ghost use Rattle.operators.specs.Monoid.{MonoidLaws};
ghost use Rattle.operators.specs.ItemWords.{WordLaws};

/// An associative operator with a unit, over the items among the values of a type.
///
/// The unit is an item, joining two items gives an item, joining is associative on items, and the unit changes no item on either
/// side. Nothing is claimed of other values, and `join` must get items. An operator that isn't commutative may be one, so the
/// order counts.
///
/// The trait says nothing of threads, so that single-threaded generic code requires no more than it uses. Code that joins in
/// several threads requires `M: Send + Sync` and `M::Item: Send + Sync`.
pub trait Monoid {
    /// The values, some or all of which are items.
    type Item: Copy;

    ghost is_item: { Self.Item → Bool };

    ghost unit: { Self.Item };

    ghost join: { Self.Item → Self.Item → Self.Item };

    /// Whether `x` is an item.
    fn is_item(x: Self::Item) -> bool
        ensures { result ≡ is_item x };

    /// The item that changes no other when it is joined to it.
    fn unit() -> Self::Item
        ensures { result ≡ unit };

    /// `a` and `b` joined, in this order. Both must be items.
    fn join(a: Self::Item, b: Self::Item) -> Self::Item
        requires first { IsTrue (is_item a) }
        requires second { IsTrue (is_item b) }
        ensures { result ≡ join a b };

    /// Whether a processor joins two items in one step, so that a loop may wait for each join before it begins the next one.
    /// Nothing is claimed of the answer, which only decides how fast a walk is.
    fn joins_in_one_step() -> bool {
        false
    }

    ghost laws: { MonoidLaws is_item unit join };
}

/// A monoid each of whose items can be kept as a word: a number from -2^53 to 2^53 - 1.
pub trait Packed: Monoid {
    ghost to_word: { Self.Item → ℤ };

    ghost from_word: { ℤ → Self.Item };

    /// The word of an item, a number from -2^53 to 2^53 - 1.
    fn to_word(x: Self::Item) -> i64
        requires { IsTrue (Self.is_item x) }
        ensures { result ≡ to_word x };

    /// The item of a word. Nothing is claimed of a word that is no item's.
    fn from_word(word: i64) -> Self::Item
        ensures { result ≡ from_word word };

    ghost words: { WordLaws Self.is_item to_word from_word };
}

/// The laws of a monoid, for generic code: the call does nothing, and its contract names them.
pub fn know_laws<M: Monoid>()
    ensures { MonoidLaws M.is_item M.unit M.join }
{}

/// The laws of a packed monoid's words, for generic code.
pub fn know_words<M: Packed>()
    ensures { WordLaws M.is_item M.to_word M.from_word }
{}
