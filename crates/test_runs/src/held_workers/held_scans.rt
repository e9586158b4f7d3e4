//! A scan at its own gate, whose workers are held.

use crew::Point;
use cvl_base::Config;
use cvl_base::monoids::Add;
use refusing_memory::Refusing;
use scan_ops::scan;
use std::test::Fail;
use watching_gate::{Holds, Race, Watch};

/// The length of a tile, how many tiles eight numbers have, and who is held of two workers.
type Row = (u32, u32, Holds);

/// Two workers are at work at one moment: each is held at its first tile until both have one. A worker that stands still at any
/// point of any tile holds up no other: the other one finishes all other tiles.
const ROWS: [Row; 25] = [
    (4, 2, Holds::FirstTiles(2)),
    (1, 8, Holds::UntilOthers(Point::Claimed(0))),
    (1, 8, Holds::UntilOthers(Point::Summed(0))),
    (1, 8, Holds::UntilOthers(Point::Looked(0))),
    (1, 8, Holds::UntilOthers(Point::Claimed(1))),
    (1, 8, Holds::UntilOthers(Point::Summed(1))),
    (1, 8, Holds::UntilOthers(Point::Looked(1))),
    (1, 8, Holds::UntilOthers(Point::Claimed(2))),
    (1, 8, Holds::UntilOthers(Point::Summed(2))),
    (1, 8, Holds::UntilOthers(Point::Looked(2))),
    (1, 8, Holds::UntilOthers(Point::Claimed(3))),
    (1, 8, Holds::UntilOthers(Point::Summed(3))),
    (1, 8, Holds::UntilOthers(Point::Looked(3))),
    (1, 8, Holds::UntilOthers(Point::Claimed(4))),
    (1, 8, Holds::UntilOthers(Point::Summed(4))),
    (1, 8, Holds::UntilOthers(Point::Looked(4))),
    (1, 8, Holds::UntilOthers(Point::Claimed(5))),
    (1, 8, Holds::UntilOthers(Point::Summed(5))),
    (1, 8, Holds::UntilOthers(Point::Looked(5))),
    (1, 8, Holds::UntilOthers(Point::Claimed(6))),
    (1, 8, Holds::UntilOthers(Point::Summed(6))),
    (1, 8, Holds::UntilOthers(Point::Looked(6))),
    (1, 8, Holds::UntilOthers(Point::Claimed(7))),
    (1, 8, Holds::UntilOthers(Point::Summed(7))),
    (1, 8, Holds::UntilOthers(Point::Looked(7))),
];

#[test]
fn held_at_each_point(rt: HostRuntime) -> Result<(), Fail> {
    let heap = Refusing::none(rt.alloc());
    let right = [0, 3, 4, 11, 11, 15, 16, 22];
    for (tile, tiles, holds) in ROWS {
        let gate = Watch::new(rt.alloc(), Race::Scan, tiles, 2, holds)?;
        let config = Config::new(tile, 2)?;
        let sums = scan::<_, _, Add, _>(&rt, &heap, config, &[3, 1, 7, 0, 4, 1, 6, 3], &gate)?;
        assert!(rt; sums.as_slice() == right.as_slice(), "in {tiles} tiles");
        assert!(rt; gate.saw_all(), "in {tiles} tiles");
    }
    Ok(())
}
