//! Which requests are refused.

ghost use Rattle.std.specs.Prelude.{◌≡◌};

/// Which requests for memory are refused. Requests count from 0, in the order in which they are made.
#[derive(Clone, Copy, PartialEq, Eq, Debug)]
pub enum Refusal {
    /// No request.
    Never,
    /// Only the request of this number.
    Only(u64),
    /// The request of this number, and all that follow it.
    From(u64),
}

impl Refusal {
    ghost use Rattle.refusing_memory.specs.Refusals.{refuses_at};

    /// Whether the request of number `request` is refused.
    pub fn refuses(self, request: u64) -> bool
        ensures { result ≡ refuses_at self request }
    {
        match self {
            Refusal::Never => false,
            Refusal::Only(k) => request == k,
            Refusal::From(k) => k <= request,
        }
    }
}
