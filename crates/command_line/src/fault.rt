//! Why the words of a command line cannot be read.

ghost use Rattle.command_line.specs.Reads.{IsFaultOf};
ghost use Rattle.command_line.specs.declared.fault.WordsFault.TheVariants as fault;

use clap::error::ErrorKind;
use std::alloc::AllocError;
use thiserror::Error;

/// Why the words of a command line cannot be read.
#[derive(Debug, Drop, Error)]
pub enum WordsFault {
    /// The command refuses the words, or they ask for its help: the error's text says it.
    #[error("{0}")]
    Refused(clap::Error),
    /// Memory ran out.
    #[error("no resources")]
    NoResources,
}

impl From<AllocError> for WordsFault {
    ghost use Rattle.std.specs.Prelude.{◌≡◌};

    ghost from_gives = { λ _ why. why ≡ fault.NoResources };

    fn from(_error: AllocError) -> WordsFault {
        WordsFault::NoResources
    }
}

/// What clap's error means: to be out of memory is no refusal.
pub(crate) fn fault_of(error: clap::Error) -> WordsFault
    ensures { IsFaultOf error result }
{
    match error.kind() {
        ErrorKind::OutOfMemory => WordsFault::NoResources,
        _ => WordsFault::Refused(error),
    }
}
