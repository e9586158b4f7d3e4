//! Files that are read whole: longer or shorter than expected, a few bytes at a time, and by reads that fail.

use cvl_base::{Config, Memory};
use refusing_memory::Refusing;
use shell::{FileRoom, ReadFailure};
use std::alloc::{AllocError, Global};
use std::io::ErrorKind::{
    BrokenPipe, Interrupted, IsADirectory, NotFound, OutOfMemory, PermissionDenied,
};
use std::io::{Error, ErrorKind, Read, Result as IoResult};
use std::test::Fail;
use std::thread::Threads;

/// A reader of a few bytes a read, one of which fails.
#[derive(Drop)]
struct Narrow<'a> {
    left: &'a [u8],
    a_read: usize,
    reads: usize,
    fails: Option<(usize, ErrorKind)>,
}

impl Read for Narrow<'_> {
    fn read(&mut self, buf: &mut [u8]) -> IoResult<usize> {
        self.reads = self.reads.saturating_add(1);
        if let Some((read, kind)) = self.fails
            && read == self.reads
        {
            return Err(Error::from(kind));
        }
        let count = self.a_read.min(buf.len()).min(self.left.len());
        let (now, later) = self.left.split_at(count);
        let (front, _) = buf.split_at_mut(count);
        front.copy_from_slice(now);
        self.left = later;
        Ok(count)
    }
}

/// How many bytes the longest file has: two steps of a mebibyte, and some more.
const LONG: usize = 2_200_000;

/// How many bytes a file has, those of a read, how many are expected, the read that fails and how, and how many bytes of memory
/// are asked for at most.
type Row = (usize, usize, usize, Option<(usize, ErrorKind)>, u64);

const ANY: u64 = u64::MAX;

/// All bytes in a read, as far as there is room.
const ALL: usize = usize::MAX;

const ROWS: &[Row] = &[
    // nothing is expected; the most for which no room is made; the fewest for which one is; one fewer than there are; as many;
    // one more, and many more
    (LONG, ALL, 0, None, ANY),
    (LONG, ALL, 1_048_575, None, ANY),
    (LONG, 100_000, 1_048_576, None, ANY),
    (LONG, 100_000, LONG - 1, None, ANY),
    (LONG, 100_000, LONG, None, ANY),
    (LONG, 100_000, LONG + 1, None, ANY),
    (LONG, 100_000, 7_000_000, None, ANY),
    (LONG, 100_000, usize::MAX, None, ANY),
    (1_200_000, ALL, 1_199_999, None, ANY),
    (1_200_000, ALL, 3_000_000, None, ANY),
    // a file that should be long and isn't takes a mebibyte at most
    (0, ALL, 2_000_000_000, None, 1_048_576),
    (5, ALL, 2_000_000_000, None, 1_048_576),
    (1_000_000, ALL, 2_000_000_000, None, 1_048_576),
    (1_048_575, ALL, 2_000_000_000, None, 1_048_576),
    // an interrupted read is made again, in a step, in a later one, and after all of them
    (LONG, 700_000, LONG, Some((1, Interrupted)), ANY),
    (LONG, 700_000, LONG, Some((4, Interrupted)), ANY),
    (LONG, 700_000, 1_048_576, Some((4, Interrupted)), ANY),
    // one that fails is not
    (LONG, 700_000, LONG, Some((1, PermissionDenied)), ANY),
    (LONG, 700_000, LONG, Some((4, PermissionDenied)), ANY),
    (LONG, 700_000, 0, Some((2, PermissionDenied)), ANY),
    (LONG, 700_000, 1_048_576, Some((4, PermissionDenied)), ANY),
    (LONG, 700_000, LONG, Some((1, IsADirectory)), ANY),
    (LONG, 700_000, 0, Some((2, OutOfMemory)), ANY),
    (LONG, 700_000, LONG, Some((4, NotFound)), ANY),
    (LONG, 700_000, 0, Some((2, BrokenPipe)), ANY),
];

/// The bytes of the longest file. No two consecutive thousands are the same.
fn long_file(alloc: Global) -> Result<Vec<u8>, AllocError> {
    let mut bytes = Vec::with_capacity(alloc, LONG)?;
    for place in 0..LONG {
        bytes.push((place % 251 + place / 1000 % 5) as u8)?;
    }
    Ok(bytes)
}

/// Why a file cannot be read in which a read fails; none if that read is made again.
fn failure_by(kind: ErrorKind) -> Option<ReadFailure> {
    match kind {
        Interrupted => None,
        NotFound => Some(ReadFailure::NotFound),
        IsADirectory => Some(ReadFailure::IsADirectory),
        PermissionDenied => Some(ReadFailure::PermissionDenied),
        OutOfMemory => Some(ReadFailure::NoResources),
        _ => Some(ReadFailure::Other),
    }
}

/// Whether the whole of a file is read that begins like this one and is as long as the row says, or the failure is that of its
/// read.
fn is_read<R: Threads + Sync, A: Memory>(rt: &R, heap: A, longest: &[u8], row: &Row) -> bool {
    let (length, a_read, expected, fails, _) = *row;
    let (file, _) = longest.split_at(length.min(longest.len()));
    let mut reader = Narrow {
        left: file,
        a_read,
        reads: 0,
        fails,
    };
    let config = Config::new(4096, 3).unwrap();
    let failure = match fails {
        Some((_, kind)) => failure_by(kind),
        None => None,
    };
    match FileRoom::new(rt, heap, config).read_whole(&mut reader, expected) {
        Ok(bytes) => failure.is_none() && bytes.as_slice() == file,
        Err(why) => failure == Some(why),
    }
}

#[test]
fn read_whole(rt: HostRuntime) -> Result<(), Fail> {
    let longest = long_file(rt.alloc())?;
    for row in ROWS {
        let heap = Refusing::none(rt.alloc());
        let is_right = is_read(&rt, &heap, &longest, row);
        assert!(rt;
            is_right && heap.bytes() <= row.4,
            "{} {} {}",
            row.0,
            row.1,
            row.2
        );
    }
    Ok(())
}
