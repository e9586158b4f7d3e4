//! Why a file could not be read.

/// Why a host could not read a file.
#[derive(Clone, Copy, Debug, PartialEq, Eq)]
pub enum ReadFailure {
    /// No file has this name.
    NotFound,
    /// The name is that of a folder.
    IsADirectory,
    /// The process may not read the file.
    PermissionDenied,
    /// There is no memory for the file.
    NoResources,
    /// The system reports another error.
    Other,
}
