//! Why a file cannot be read: the errors of the system that cvl tells apart, and their explanations.

ghost use Rattle.std.specs.Prelude.{◌≡◌};
ghost use Rattle.shell.specs.ReadFailures.{explained_failure, failure_of};

use script_runs::ReadFailure;
use std::io::ErrorKind;

/// The explanations, a line each.
const NOT_FOUND: &[u8] =
    b"  no such file: check the spelling, and the folder in which cvl was started\n";

const NO_STANDARD_INPUT: &[u8] = b"  no such file: to read standard input, write /dev/stdin\n";

const IS_A_DIRECTORY: &[u8] = b"  it is a folder: name a file in it\n";

const PERMISSION_DENIED: &[u8] =
    b"  permission denied: you may not read the file, or not enter a folder on the way to it\n";

const NO_RESOURCES: &[u8] =
    b"  memory ran out: give cvl a shorter file, or allow the process more memory\n";

const OTHER: &[u8] =
    b"  the system reports an error: it may be a socket, a loop of links, or on a disk that fails\n";

/// Why a file cannot be read, by the system's error. A name that is too long, or that goes on behind a file, is no file's.
pub(crate) fn failure_of(kind: ErrorKind) -> ReadFailure
    ensures { result ≡ failure_of kind }
{
    match kind {
        ErrorKind::NotFound | ErrorKind::NotADirectory | ErrorKind::InvalidFilename => {
            ReadFailure::NotFound
        }
        ErrorKind::IsADirectory => ReadFailure::IsADirectory,
        ErrorKind::PermissionDenied => ReadFailure::PermissionDenied,
        ErrorKind::OutOfMemory => ReadFailure::NoResources,
        _ => ReadFailure::Other,
    }
}

/// The explanation of a file that cannot be read. It takes no memory.
pub(crate) fn explained_failure(name: &str, why: ReadFailure) -> &'static [u8]
    ensures { result.now ≡ explained_failure name.now why }
{
    match why {
        ReadFailure::NotFound => {
            if name.as_bytes() == b"-".as_slice() {
                NO_STANDARD_INPUT
            } else {
                NOT_FOUND
            }
        }
        ReadFailure::IsADirectory => IS_A_DIRECTORY,
        ReadFailure::PermissionDenied => PERMISSION_DENIED,
        ReadFailure::NoResources => NO_RESOURCES,
        ReadFailure::Other => OTHER,
    }
}
