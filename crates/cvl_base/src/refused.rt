//! Why a call has no value: a fault, or no memory left for it.

ghost use Rattle.std.specs.Prelude.{◌≡◌};
ghost use Rattle.cvl_base.specs.declared.refused.Refused.TheVariants as refused;

use crate::fault::Fault;
use std::alloc::{AllocError, AllocFailed};

/// Memory ran out: there is none for what the call would make.
#[derive(Clone, Copy, Debug, PartialEq, Eq)]
pub struct NoResources;

impl From<AllocError> for NoResources {
    fn from(_error: AllocError) -> NoResources {
        NoResources
    }
}

impl<T: Drop> From<AllocFailed<T>> for NoResources {
    fn from(_failed: AllocFailed<T>) -> NoResources {
        NoResources
    }
}

/// A call has no value: its arguments have a fault, or memory ran out.
#[derive(Clone, Copy, Debug, PartialEq, Eq)]
pub enum Refused {
    /// The first fault of the call, in the order of checks.
    Fault(Fault),
    /// Memory ran out.
    NoResources,
}

impl From<Fault> for Refused {
    ghost from_gives = { λ f r. r ≡ refused.Fault f };

    fn from(fault: Fault) -> Refused {
        Refused::Fault(fault)
    }
}

impl From<NoResources> for Refused {
    ghost from_gives = { λ _ r. r ≡ refused.NoResources };

    fn from(_error: NoResources) -> Refused {
        Refused::NoResources
    }
}

impl From<AllocError> for Refused {
    ghost from_gives = { λ _ r. r ≡ refused.NoResources };

    fn from(_error: AllocError) -> Refused {
        Refused::NoResources
    }
}

impl<T: Drop> From<AllocFailed<T>> for Refused {
    ghost from_gives = { λ _ r. r ≡ refused.NoResources };

    fn from(_failed: AllocFailed<T>) -> Refused {
        Refused::NoResources
    }
}
