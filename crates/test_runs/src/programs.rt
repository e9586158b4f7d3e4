//! The program's texts, messages and statuses, on a host in memory that may fail.

use recipes::{LINE_OF_SIGHT, SPARSE_MATVEC};
use refusing_memory::Refusing;
use shell::OpenGate;
use std::test::Fail;
use test_fixtures::hosts::Failing::{Errors, Flush, Nothing, Room, Writes};
use test_fixtures::hosts::{Failing, Files, text_of};
use test_fixtures::programs::{REFUSED, Row, ends_as};

/// A script that sums up a vector segment by segment. Its lines 4, 6 and 8 write 29, 30 and 17 bytes.
const SEGMENTS: &str = "l = input 1
v = input 2
d = mke_fov l
write v d
s = add_sez v d
write s d
r = add_rez v d
write r
";

pub const FILES: Files = &[
    ("empty", ""),
    ("scan", "a = input 1\nb = add_suz a\nwrite b\n"),
    ("last", "a = input 198\nb = add_suz a\nwrite b\n"),
    ("late", "a = input 1\nwrite a\nb = xyz_wuz a\n"),
    ("numbers", "3 1 7 0 4\n"),
    (
        "gather",
        "v = input 1\nindex = input 2\nr = bck_puz v index\n",
    ),
    ("index", "2 5 0\n"),
    ("nest", "v d = nested 1\n"),
    ("read_nest", "a = input 1\nv d = nested 1\n"),
    ("sparse_matvec", SPARSE_MATVEC),
    ("lengths", "2 0 2\n"),
    ("columns", "0 2 1 2\n"),
    ("values", "2 1 3 4\n"),
    ("x", "1 2 3\n"),
    ("line_of_sight", LINE_OF_SIGHT),
    ("hill", "0 1 1 6 2\n"),
    ("segments", SEGMENTS),
    ("segment_lengths", "0 2 0 3 0"),
    ("segment_values", "5 1 7 7 1"),
];

/// The message about a tile without elements.
const NO_TILE: &str = "error: invalid value '0' for '--tile <N>': 0 is not in 1..=65536

For more information, try '--help'.
";

/// The text of the version.
const VERSION: &str = "cvl 1.0.0\n";

/// The text of the help.
const HELP: &str = "Runs a script of vector calls over files of integers

Usage: cvl [OPTIONS] <SCRIPT> [INPUT]...

Arguments:
  <SCRIPT>    The file of the script, with a call or a write on each line
  [INPUT]...  The file of each input, integers between white space; the first is input 1

Options:
      --tile <N>     The length of a tile, in elements, from 1 to 65536 [default: 4096]
      --workers <N>  The number of workers, from 1 to 64 [default: 4]
      --explain      Explain on standard error why the script stopped
  -h, --help         Print help
  -V, --version      Print version

Exit status:
  0  the script ran to its end
  1  the script has a fault
  2  the command line was refused
  3  a file, memory or a write failed

For more see man cvl, and, in share/doc/cvl of an installation or in a checkout, docs/user/calls.md
for each call and docs/user/script.md for scripts, inputs and faults.
";

/// What the scan of the numbers writes.
pub const SCANNED: &str = "b = [0 3 4 11 11]\n";

/// What the script with a late fault writes, and its message.
pub const GIVEN: &str = "a = [3 1 7 0 4]\n";

pub const LATE: &str = "line 3: fault 2 UnknownCall\n";

/// The sums segment by segment, and what they write in all.
const SUMS: &str = "cvl --tile 2 --workers 3 segments segment_lengths segment_values";

const SUMMED: &str =
    "v = [[] [5 1] [] [7 7 1] []]\ns = [[] [0 5] [] [0 7 14] []]\nr = [0 6 0 15 0]\n";

pub const NO_FILE: &str = "cannot read nofile\n";

/// The messages about files that cannot be read, each with its explanation.
const WHY_NO_FILE: &str = "cannot read nofile
  no such file: check the spelling, and the folder in which cvl was started
";

const WHY_NO_DASH: &str = "cannot read -
  no such file: to read standard input, write /dev/stdin
";

const WHY_FOLDER: &str = "cannot read folder
  it is a folder: name a file in it
";

const WHY_SHUT: &str = "cannot read shut
  permission denied: you may not read the file, or not enter a folder on the way to it
";

const WHY_BROKEN: &str = "cannot read broken
  the system reports an error: it may be a socket, a loop of links, or on a disk that fails
";

/// The recipes, and the message about a line of sight without a place.
const PRODUCT: &str = "cvl --tile 2 --workers 3 sparse_matvec lengths columns values x";

const SIGHT: &str = "cvl --tile 2 --workers 3 line_of_sight hill";

const NO_HILL: &str = "line 3: fault 10 IndexOutOfRange at 0\n";

/// The message about an index, and its explanation.
pub const OUT_OF_RANGE: &str = "line 3: fault 10 IndexOutOfRange at 1
  3 | r = bck_puz v index
  bck_puz takes integers and integers, and gives integers
  v: integers, 5 elements, bound at line 1 by input 1 (numbers)
  index: integers, 3 elements, bound at line 2 by input 2 (index)
  index[1] is 5, and v has 5 elements
";

/// The messages about a list of numbers that should be a nested text, as the first line reads it and the second, and their
/// explanations.
pub const NO_NEST: &str = "line 1: fault 15 BadInput at 0
  1 | v d = nested 1
  nested takes an integer, and gives integers and a descriptor
  numbers is a list of numbers, which input reads; nested reads a list of lists, as [[1 2] []]
";

const READ_NO_NEST: &str = "line 2: fault 15 BadInput at 0
  2 | v d = nested 1
  nested takes an integer, and gives integers and a descriptor
  numbers is a list of numbers, which input reads; nested reads a list of lists, as [[1 2] []]
";

const ROWS: &[Row] = &[
    ("cvl empty", "", "", 0),
    ("cvl scan numbers", SCANNED, "", 0),
    ("cvl scan empty", "b = []\n", "", 0),
    ("cvl late numbers", GIVEN, LATE, 1),
    ("cvl scan", "", "line 1: fault 14 NoSuchInput\n", 1),
    ("cvl nofile", "", NO_FILE, 3),
    ("cvl scan numbers nofile", "", NO_FILE, 3),
    ("cvl nofile none", "", NO_FILE, 3),
    ("cvl --tile=1 --workers 64 scan numbers", SCANNED, "", 0),
    ("cvl scan numbers --tile 65536", SCANNED, "", 0),
    ("cvl -- -x --tile", "", "cannot read -x\n", 3),
    (PRODUCT, "y = [5 0 18]\n", "", 0),
    (SIGHT, "v = [T T F T F]\n", "", 0),
    ("cvl line_of_sight empty", "", NO_HILL, 1),
    // with an explanation, if the script stops
    ("cvl --explain gather numbers index", "", OUT_OF_RANGE, 1),
    ("cvl nest --explain numbers", "", NO_NEST, 1),
    ("cvl --explain read_nest numbers", "", READ_NO_NEST, 1),
    ("cvl --explain scan numbers", SCANNED, "", 0),
    ("cvl --explain nofile", "", WHY_NO_FILE, 3),
    ("cvl scan numbers nofile shut --explain", "", WHY_NO_FILE, 3),
    ("cvl --explain scan -", "", WHY_NO_DASH, 3),
    ("cvl --explain folder numbers", "", WHY_FOLDER, 3),
    ("cvl --explain scan shut folder", "", WHY_SHUT, 3),
    ("cvl --explain scan broken", "", WHY_BROKEN, 3),
    ("cvl scan folder", "", "cannot read folder\n", 3),
    // help, the version, and command lines that are refused
    ("cvl -h", HELP, "", 0),
    ("cvl --help", HELP, "", 0),
    ("cvl scan numbers --help", HELP, "", 0),
    ("cvl -V", VERSION, "", 0),
    ("cvl --version", VERSION, "", 0),
    ("cvl scan nofile --version", VERSION, "", 0),
    ("cvl --tile 0 scan", "", NO_TILE, 2),
    ("", "", REFUSED, 2),
    ("cvl", "", REFUSED, 2),
    ("cvl --", "", REFUSED, 2),
    ("cvl --tile 2", "", REFUSED, 2),
    ("cvl --tile", "", REFUSED, 2),
    ("cvl --tile 65537 scan", "", REFUSED, 2),
    ("cvl --tile x scan", "", REFUSED, 2),
    ("cvl --tile 8 --tile 9 scan", "", REFUSED, 2),
    ("cvl --workers 0 scan", "", REFUSED, 2),
    ("cvl --workers 65 scan", "", REFUSED, 2),
    ("cvl --workers= scan", "", REFUSED, 2),
    ("cvl scan -x", "", REFUSED, 2),
    ("cvl --Version", "", REFUSED, 2),
];

/// Hosts that fail when the status already says something else, or whose standard output takes little a write and does not fail.
const FAILING: &[(Failing, Row)] = &[
    (Flush, ("cvl nofile", "", NO_FILE, 3)),
    (Flush, ("cvl late numbers", GIVEN, LATE, 1)),
    (Errors(7), ("cvl late numbers", GIVEN, "line 3:", 1)),
    (Errors(6), ("cvl nofile", "", "cannot", 3)),
    (
        Errors(22),
        ("cvl --explain nofile", "", "cannot read nofile\n  n", 3),
    ),
    (Writes(0, 76), (SUMS, SUMMED, "", 0)),
    (Writes(1, 39), (SUMS, SUMMED, "", 0)),
    (Writes(28, 4), (SUMS, SUMMED, "", 0)),
    (Writes(100, 3), (SUMS, SUMMED, "", 0)),
];

/// Hosts whose standard output fails, a command line and its text, how many bytes of it are taken at most, and the line in the
/// message.
const STOPPED: &[(Failing, &str, &str, usize, u32)] = &[
    (Flush, "cvl scan numbers", SCANNED, usize::MAX, 0),
    (Flush, "cvl -h", HELP, usize::MAX, 0),
    (Writes(0, 4), "cvl -h", HELP, 4, 0),
    (Room(4), "cvl -h", HELP, 4, 0),
    (Writes(0, 4), "cvl scan numbers", SCANNED, 4, 3),
    (Room(4), "cvl scan numbers", SCANNED, 4, 3),
    (Writes(0, 0), "cvl late numbers", GIVEN, 0, 2),
    (Writes(0, 0), SUMS, SUMMED, 0, 4),
    (Writes(0, 28), SUMS, SUMMED, 28, 4),
    (Writes(0, 29), SUMS, SUMMED, 29, 6),
    (Writes(0, 58), SUMS, SUMMED, 58, 6),
    (Writes(0, 59), SUMS, SUMMED, 59, 8),
    (Writes(0, 75), SUMS, SUMMED, 75, 8),
    (Writes(6, 4), SUMS, SUMMED, 28, 4),
    (Writes(100, 1), SUMS, SUMMED, 29, 6),
];

/// A write whose text is put in four whole pieces of 131,072 bytes, after a beginning of 6. An element of 2 bytes and an end of 2
/// follow.
const LONG: &str = "v = dis_vuz 7 262146\nwrite v\n";

/// How many writes standard output takes, of 1,000 bytes at most, and how many bytes of the text it has then: a piece takes 132.
const LONG_WRITES: &[(u64, usize)] = &[
    (0, 0),
    (1, 6),
    (132, 131_006),
    (133, 131_078),
    (134, 132_078),
    (529, 524_294),
    (530, 524_296),
    (531, 524_298),
];

#[test]
fn texts_messages_and_statuses(rt: HostRuntime) -> Result<(), Fail> {
    let heap = Refusing::none(rt.alloc());
    for row in ROWS {
        let right = ends_as(&rt, &heap, FILES, Nothing, row, &OpenGate)?;
        assert!(rt; right, "{}", row.0);
    }
    for (failing, row) in FAILING {
        let right = ends_as(&rt, &heap, FILES, *failing, row, &OpenGate)?;
        assert!(rt; right, "{}", row.0);
    }
    for (failing, line, text, taken, told) in STOPPED {
        let text = match text.split_at_checked(*taken) {
            Some((text, _)) => text,
            None => *text,
        };
        let errors = format!(in rt.alloc(); "line {told}: write failed\n")?;
        let row = (*line, text, errors.as_str(), 3);
        let right = ends_as(&rt, &heap, FILES, *failing, &row, &OpenGate)?;
        assert!(rt; right, "{line}");
    }
    Ok(())
}

#[test]
fn long_writes_to_narrow_writers(rt: HostRuntime) -> Result<(), Fail> {
    let heap = Refusing::none(rt.alloc());
    let text = text_of(rt.alloc(), "v = [7", " 7", 262_145, "]\n")?;
    for (writes, taken) in LONG_WRITES {
        let (front, errors, status) = match text.split_at_checked(*taken) {
            Some((front, "")) => (front, "", 0),
            Some((front, _)) => (front, "line 2: write failed\n", 3),
            None => ("", "", 1),
        };
        for line in ["cvl --workers 1 long", "cvl --workers 3 long"] {
            let (files, row) = ([("long", LONG)], (line, front, errors, status));
            let right = ends_as(&rt, &heap, &files, Writes(999, *writes), &row, &OpenGate)?;
            assert!(rt; right, "{line}, {writes} writes");
        }
    }
    Ok(())
}
