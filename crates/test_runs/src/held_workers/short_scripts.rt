//! Scripts whose workers race in short tiles: each call, by one worker and by many, who are held there or not; the least of
//! several faults, again and again; and the longest vector.

use crew::Point;
use cvl_base::NoResources;
use std::alloc::Global;
use std::test::Fail;
use std::thread::Threads;
use test_fixtures::scripts::{ONE, Run, SCAN, Script, TWO, comes_out};
use watching_gate::{Holds, Race};

const INPUTS: &[&str] = &[
    "3 1 7 0",
    "1 1 1 1",
    "3 2 1 0",
    "1 2 3 0",
    "2 0 1 9",
    "9 9 9 9 9",
    "1 0 3",
    "1 1 3",
    "0 2 0 1",
    "0 1 0 9",
];

/// Binds numbers, ones, places in two orders, those of a select, nines, two descriptors, places in segments, those of a select,
/// flags, of which the last is false, and others, of which none is true, twos, and what has no element: a vector, and three
/// segments. No call here races.
const BINDINGS: &str = "a = input 1
o = input 2
i = input 3
j = input 4
k = input 5
n = input 6
l = input 7
d = mke_fov l
l = input 8
e = mke_fov l
p = input 9
q = input 10
f = boo_wuz a
g = les_wuz a a
t = add_wuz o o
z = dis_vuz 0 0
s = dis_vuz 0 3
s = mke_fov s
";

/// A call, after the call that makes its argument if no name has it, what its workers race for, and what is written of its value,
/// or its fault.
type Call = (&'static str, Race, &'static str);

/// Calls on four places. For the last ones there is no place to take from, or to send to; their tiles are still those of the
/// index.
const CALLS: &[Call] = &[
    ("add_suz a", SCAN, "b = [0 3 4 11]\n"),
    ("add_sez a d", SCAN, "b = [0 0 1 8]\n"),
    ("add_ruz a", SCAN, "b = 11\n"),
    ("add_rez a d", SCAN, "b = [3 0 8]\n"),
    ("xor_sub f", SCAN, "b = [F T F T]\n"),
    ("xor_seb f d", SCAN, "b = [F F T F]\n"),
    ("xor_rub f", SCAN, "b = T\n"),
    ("xor_reb f d", SCAN, "b = [T F F]\n"),
    ("tot_suz a", Race::ScanThenLeast, "b = [0 3 4 11]\n"),
    ("tot_sez a d", Race::ScanThenLeast, "b = [0 0 1 8]\n"),
    ("tot_ruz a", SCAN, "b = 11\n"),
    ("tot_rez a d", SCAN, "b = [3 0 8]\n"),
    (
        "dis_vuz 2147483647 4\nb = tot_suz b",
        Race::ScanThenLeast,
        "line 20: fault 18 Overflow at 2\n",
    ),
    (
        "dis_vuz 2147483647 4\nb = tot_sez b d",
        Race::ScanThenLeast,
        "line 20: fault 18 Overflow at 3\n",
    ),
    (
        "dis_vuz 2147483647 4\nb = tot_ruz b",
        SCAN,
        "line 20: fault 18 Overflow at 0\n",
    ),
    (
        "dis_vuz 2147483647 4\nb = tot_rez b d",
        SCAN,
        "line 20: fault 18 Overflow at 2\n",
    ),
    ("div_wuz a o", ONE, "b = [3 1 7 0]\n"),
    ("div_wuz o a", ONE, "line 19: fault 8 DivideByZero at 3\n"),
    ("mod_wuz a t", ONE, "b = [1 1 1 0]\n"),
    ("lsh_wuz a i", ONE, "b = [24 4 14 0]\n"),
    ("rsh_wuz a i", ONE, "b = [0 0 3 0]\n"),
    ("smp_puz a i", TWO, "b = [0 7 1 3]\n"),
    ("smp_puz a o", TWO, "line 19: fault 11 IndexRepeated at 1\n"),
    ("smp_pez a p d", TWO, "b = [3 7 0 1]\n"),
    ("smp_pub f j", TWO, "b = [F T T T]\n"),
    ("bck_puz a j", ONE, "b = [1 7 0 3]\n"),
    (
        "bck_puz a k",
        ONE,
        "line 19: fault 10 IndexOutOfRange at 3\n",
    ),
    ("bck_pez a p d d", ONE, "b = [3 0 1 7]\n"),
    ("sel_puz a k f", TWO, "b = [1 7 3]\n"),
    ("sel_pez a q f d", TWO, "b = [3 7 1]\n"),
    ("def_puz a j n", TWO, "b = [0 3 1 7 9]\n"),
    ("def_pez a p n d e", TWO, "b = [3 9 7 0 1]\n"),
    ("cnt_leb f d", SCAN, "b = [1 0 2]\n"),
    ("pck_luz a f", SCAN, "b = [3 1 7]\n"),
    ("pck_lez a f d", SCAN, "b = [3 1 7]\n"),
    ("pck_lub f f", SCAN, "b = [T T T]\n"),
    ("pck_fov f d", SCAN, "b = [1 0 2]\n"),
    (
        "bck_puz z k",
        ONE,
        "line 19: fault 10 IndexOutOfRange at 0\n",
    ),
    (
        "bck_pez z p s d",
        ONE,
        "line 19: fault 10 IndexOutOfRange at 0\n",
    ),
    ("sel_puz a k g", TWO, "b = []\n"),
    ("sel_pez a q g d", TWO, "b = []\n"),
    (
        "def_pez a p z d s",
        TWO,
        "line 19: fault 10 IndexOutOfRange at 0\n",
    ),
];

/// The runs of each call on four elements. Two workers are at work at one moment: each is held at its first tile until both have
/// one, and the one at tile 0 until the other has finished all others. Of two workers the one that first claims a tile is held
/// until the other has finished the three other tiles, for each tile in turn. In each cut into tiles, by one worker and by many,
/// the gate sees each tile.
const RUNS: &[Run] = &[
    (2, 2, 2, Holds::FirstTiles(2)),
    (1, 2, 4, Holds::TileZero(Point::Claimed(0))),
    (1, 2, 4, Holds::UntilOthers(Point::Claimed(0))),
    (1, 2, 4, Holds::UntilOthers(Point::Claimed(1))),
    (1, 2, 4, Holds::UntilOthers(Point::Claimed(2))),
    (1, 2, 4, Holds::UntilOthers(Point::Claimed(3))),
    (1, 1, 4, Holds::Nobody),
    (1, 3, 4, Holds::Nobody),
    (1, 64, 4, Holds::Nobody),
    (2, 2, 2, Holds::Nobody),
    (2, 3, 2, Holds::Nobody),
    (3, 2, 2, Holds::Nobody),
    (4, 7, 1, Holds::Nobody),
    (1023, 64, 1, Holds::Nobody),
];

/// Calls on 1,000 places with two faults each.
const FAULTY: &[Call] = &[
    (
        "dis_vuz 7 1000\nx = dis_vuz 1 1000\nx = rep_vuz x 3 0\nx = rep_vuz x 900 0\nb = div_wuz b x",
        ONE,
        "line 23: fault 8 DivideByZero at 3\n",
    ),
    (
        "ind_luz 0 1 1000\nb = rep_vuz b 5 2\nb = rep_vuz b 999 1000\nb = smp_puz b b",
        TWO,
        "line 22: fault 11 IndexRepeated at 5\n",
    ),
];

/// The same outcome each time, since each run may race another way.
const AGAIN: &[Run] = &[(16, 8, 63, Holds::Nobody); 100];

/// A call on the longest vector, for whose tiles workers race too.
const LONGEST: &[Call] = &[("dis_vuz 1 4194304\nb = add_ruz b", SCAN, "b = 4194304\n")];

const ONCE: &[Run] = &[(1023, 4, 4101, Holds::Nobody)];

/// The first of the calls that does not come out in one of the runs, if one does not, with the tile and the workers of the run.
fn first_wrong<R: Threads + Sync>(
    rt: &R,
    alloc: Global,
    calls: &[Call],
    runs: &[Run],
) -> Result<Option<(&'static str, u32, u32)>, NoResources> {
    for (call, race, outcome) in calls {
        let lines = format!(in alloc; "{BINDINGS}b = {call}\nwrite b\n")?;
        let script = Script {
            lines: lines.as_str(),
            inputs: INPUTS,
            outcome,
            race: *race,
        };
        for run in runs {
            if !comes_out(rt, alloc, &script, *run)? {
                return Ok(Some((*call, run.0, run.1)));
            }
        }
    }
    Ok(None)
}

#[test]
fn each_call_held_and_seen(rt: HostRuntime) -> Result<(), Fail> {
    let held = first_wrong(&rt, rt.alloc(), CALLS, RUNS)?;
    let faulty = first_wrong(&rt, rt.alloc(), FAULTY, AGAIN)?;
    let longest = first_wrong(&rt, rt.alloc(), LONGEST, ONCE)?;
    assert!(rt;
        held.is_none() && faulty.is_none() && longest.is_none(),
        "{held:?} {faulty:?} {longest:?}"
    );
    Ok(())
}
