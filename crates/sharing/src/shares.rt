//! How many of the items that threads share some of the threads have.

ghost use Rattle.std.specs.Prelude.{◌≡◌, ◌≤◌};
ghost use Rattle.sharing.specs.Shares.{share_of_first};

/// How many of `items` items the first `few` of `threads` threads have. Each thread has the same number, and the last ones also
/// have the rest.
pub fn share_of_first(few: usize, threads: usize, items: usize) -> usize
    requires some { 1 ≤ threads }
    requires no_more { few ≤ threads }
    ensures exact { result ≡ share_of_first few threads items }
    ensures within { result ≤ items }
{
    items / threads * few
}
