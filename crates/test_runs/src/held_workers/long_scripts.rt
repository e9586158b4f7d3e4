//! Scripts over long vectors: which lengths workers race for, in how many tiles, and workers that are held there.

use cvl_base::NoResources;
use std::alloc::Global;
use std::test::Fail;
use std::thread::Threads;
use test_fixtures::scripts::{ONE, SCAN, Script, TWO, comes_out};
use watching_gate::{Holds, Race};

/// The first lines of each script. Its first input is how many elements there are and the last place, and its second one the
/// lengths of four segments. No call here races.
const BINDINGS: &str = "n = input 1
c = ext_vuz n 0
k = ext_vuz n 1
l = input 2
d = mke_fov l
z = input 3
w = input 4
o = dis_vuz 1 c
t = dis_vuz c c
i = ind_luz 0 1 c
j = ind_lez z w d
";

/// Counts the right elements of a value, and shows that.
const COUNT: &str = "m = cnt_lub e\nwrite m\n";

/// Lines that bind a call's value to `v`, the vector that is the same, or the call's fault, which is at the last place, what its
/// workers race for, and from how many elements on.
type Call = (&'static str, &'static str, Race, u32);

const CALLS: &[Call] = &[
    ("v = add_suz o", "i", SCAN, 262_144),
    ("v = add_sez o d", "j", SCAN, 262_144),
    ("r = add_ruz o\nv = dis_vuz r c", "t", SCAN, 262_144),
    (
        "r = add_rez o d\nr = add_ruz r\nv = dis_vuz r c",
        "t",
        SCAN,
        262_144,
    ),
    ("v = div_wuz i o", "i", ONE, 262_144),
    (
        "b = rep_vuz o k 0\nv = div_wuz i b",
        "fault 8 DivideByZero",
        ONE,
        262_144,
    ),
    // a permute in long tiles is no race, but for the first bad place
    ("v = smp_puz i i", "i", TWO, u32::MAX),
    (
        "b = rep_vuz i k 5\nv = smp_puz i b",
        "fault 11 IndexRepeated",
        TWO,
        262_144,
    ),
];

/// How many elements there are and the last place, the former as a number, the tile and the workers of the configuration, the
/// tile of the race, and who is held, at its first tile, until the others have finished all other tiles.
type Length = (&'static str, u32, u32, u32, u32, Holds);

const LENGTHS: &[Length] = &[
    ("262143 262142", 262_143, 4_096, 4, 4_096, Holds::Nobody),
    ("262144 262143", 262_144, 4_096, 4, 8_192, Holds::Nobody),
    ("262145 262144", 262_145, 65_536, 3, 65_536, Holds::Nobody),
    ("524287 524286", 524_287, 4_096, 4, 10_922, Holds::Nobody),
    ("524288 524287", 524_288, 4_096, 4, 8_192, Holds::Nobody),
    ("524288 524287", 524_288, 4_096, 4, 8_192, Holds::Worker(0)),
    ("524288 524287", 524_288, 4_096, 4, 8_192, Holds::Worker(1)),
    ("524288 524287", 524_288, 4_096, 4, 8_192, Holds::Worker(2)),
    ("524288 524287", 524_288, 4_096, 4, 8_192, Holds::Worker(3)),
];

/// Whether a call on so many elements comes out, in as many tiles as it should.
fn is_raced<R: Threads + Sync>(
    rt: &R,
    alloc: Global,
    length: &Length,
    call: &Call,
) -> Result<bool, NoResources> {
    let (numbers, elements, tile, workers, raced, holds) = *length;
    let (call, told, race, least) = *call;
    let is_fault = told.starts_with("fault");
    let same = if is_fault { "v" } else { told };
    let lines = format!(in alloc; "{BINDINGS}{call}\ne = eql_wuz v {same}\n{COUNT}")?;
    let outcome = if is_fault {
        let last = elements.saturating_sub(1);
        format!(in alloc; "line 13: {told} at {last}\n")?
    } else {
        format!(in alloc; "m = {elements}\n")?
    };
    let rest = elements.saturating_sub(170_001);
    let lengths = format!(in alloc; "1 0 170000 {rest}")?;
    let inputs = [numbers, lengths.as_str(), "0 0 0 0", "1 1 1 1"];
    let script = Script {
        lines: lines.as_str(),
        inputs: &inputs,
        outcome: outcome.as_str(),
        race,
    };
    let tiles = if elements >= least {
        elements.div_ceil(raced.max(1))
    } else {
        0
    };
    comes_out(rt, alloc, &script, (tile, workers, tiles, holds))
}

#[test]
fn about_each_least_length(rt: HostRuntime) -> Result<(), Fail> {
    for length in LENGTHS {
        for call in CALLS {
            let right = is_raced(&rt, rt.alloc(), length, call)?;
            assert!(rt; right, "{} elements: {}", length.1, call.0);
        }
    }
    Ok(())
}
