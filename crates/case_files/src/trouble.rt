//! Why the cases of a file cannot be run.

use cvl_base::NoResources;
use std::alloc::{AllocError, AllocFailed};
use std::io;
use thiserror::Error;

/// Why the cases of a file cannot be run.
#[derive(Clone, Copy, Debug, Drop, Error)]
pub enum Trouble<'a> {
    /// A file cannot be read.
    #[error("cannot read {0}")]
    Unreadable(&'a str),
    /// There is no such heading, or it stands before the first case.
    #[error("no such heading: == {0}")]
    Heading(&'a str),
    /// There is no memory for the cases.
    #[error("no resources")]
    NoResources,
    /// Standard output failed.
    #[error("write failed")]
    Output,
}

impl From<NoResources> for Trouble<'_> {
    fn from(_: NoResources) -> Self {
        Trouble::NoResources
    }
}

impl From<AllocError> for Trouble<'_> {
    fn from(_: AllocError) -> Self {
        Trouble::NoResources
    }
}

impl<T: Drop> From<AllocFailed<T>> for Trouble<'_> {
    fn from(_: AllocFailed<T>) -> Self {
        Trouble::NoResources
    }
}

impl From<io::Error> for Trouble<'_> {
    fn from(_: io::Error) -> Self {
        Trouble::Output
    }
}
