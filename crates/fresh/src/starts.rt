//! What starts the thread of a fork.

ghost use Rattle.std.specs.Prelude.{◌≡◌};

use std::thread::Threads;

/// What starts the thread of a fork: the standard library, or `rayon`.
#[derive(Clone, Copy)]
pub(crate) enum Starts {
    ByStd,
    ByRayon,
}

impl Starts {
    /// Calls both, the first in a thread of its own; if none can be made, one after the other.
    pub(crate) fn both<
        R: Threads + Sync,
        X: Send + Drop,
        Y: Drop,
        F: FnOnce() -> X + Send + Drop,
        G: FnOnce() -> Y + Drop,
    >(self, rt: &R, first: F, second: G) -> (X, Y)
        requires { F.pre first × G.pre second }
        ensures first { F.post first result.0 }
        ensures second { G.post second result.1 }
    {
        match self {
            Starts::ByStd => std::thread::join(rt, first, second),
            Starts::ByRayon => rayon::join(rt, first, second),
        }
    }
}
