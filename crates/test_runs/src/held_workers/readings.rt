//! How often the elements of a scan have been read when a worker passes each point.

ghost use Rattle.std.specs.List.{AllPass};
ghost use Rattle.cvl_base.specs.ItemWords.{is_number};

use crew::{Gate, Point};
use cvl_base::Config;
use cvl_base::monoids::Add;
use refusing_memory::Refusing;
use scan_ops::{Reading, scan_readings, seg_reduce_readings};
use segdes::SegDes;
use std::sync::atomic::{AtomicU64, Ordering};
use std::test::Fail;
use watching_gate::{Holds, Race, Watch, place_of};

/// A number, and how often it was read.
#[derive(Clone, Copy)]
struct Counted<'a>(i32, &'a AtomicU64);

/// The rule by which such a number is read as itself, and counted.
struct Counting;

impl<'a> Reading<Counted<'a>, i32> for Counting {
    ghost item = { λ x. x.0 };

    fn item(x: Counted<'a>) -> i32 {
        x.1.fetch_add(1, Ordering::SeqCst);
        x.0
    }
}

/// A gate over four tiles of one element each. When a worker leaves a point, it notes how often the tile's element was read so
/// far, as a digit of a number of the tile after a 9; and at the points of tile 1 that of tile 0 in a number after them.
#[derive(Drop)]
struct Noting<'a> {
    watch: Watch,
    reads: &'a [AtomicU64],
    notes: [AtomicU64; 5],
}

impl Noting<'_> {
    /// Adds a digit to a note: how often the element of this tile was read.
    fn add(&self, note: usize, tile: usize) {
        if let (Some(reads), Some(note)) = (self.reads.get(tile), self.notes.get(note)) {
            let digit = reads.load(Ordering::SeqCst);
            let digits = note.load(Ordering::SeqCst);
            let digits = digits.wrapping_mul(10).wrapping_add(digit);
            note.store(digits, Ordering::SeqCst);
        }
    }
}

impl Gate for Noting<'_> {
    fn pass(&self, worker: u32, point: Point) {
        self.watch.pass(worker, point);
        let tile = place_of(point).0;
        self.add(tile as usize, tile as usize);
        if tile == 1 {
            self.add(4, 0);
        }
    }
}

/// Four numbers, whose reads are counted here.
fn elements(reads: &[AtomicU64; 5]) -> [Counted<'_>; 4]
    ensures { AllPass (λ x. is_number x.0) result }
{
    let [first, second, third, fourth, _] = reads;
    [
        Counted(3, first),
        Counted(1, second),
        Counted(7, third),
        Counted(0, fourth),
    ]
}

/// Words that start with this number.
fn words(start: u64) -> [AtomicU64; 5] {
    [
        AtomicU64::new(start),
        AtomicU64::new(start),
        AtomicU64::new(start),
        AtomicU64::new(start),
        AtomicU64::new(start),
    ]
}

/// Whether the first words hold these numbers.
fn hold(words: &[AtomicU64], numbers: &[u64]) -> bool {
    let mut right = true;
    for (word, number) in words.iter().zip(numbers) {
        right &= word.load(Ordering::SeqCst) == *number;
    }
    right
}

/// The workers, whether they reduce four segments and don't scan, who is held, the notes, and how often each element is read
/// in all.
type Row = (u32, bool, Holds, [u64; 5], [u64; 4]);

/// Each element was read only for its tile's sum, after the tile was claimed; and once more in all.
const ONCE: [u64; 5] = [90111, 90111, 90111, 90111, 91111];

const TWICE: [u64; 4] = [2, 2, 2, 2];

/// That of tile 0 was first read by the worker of tile 1, who looked back.
const LOOKED_AT: [u64; 5] = [91222, 90111, 90111, 90111, 90011];

const ROWS: [Row; 4] = [
    // each element is read for its tile's sum, and once more when the scan is written
    (1, false, Holds::Nobody, ONCE, TWICE),
    // the look-back from tile 1 adds up tile 0, of which nothing is told
    (
        2,
        false,
        Holds::TileZero(Point::Claimed(0)),
        LOOKED_AT,
        [3, 2, 2, 2],
    ),
    // and does not if its sum is told
    (2, false, Holds::TileZero(Point::Summed(0)), ONCE, TWICE),
    // a reduce of segments reads each element for its tile's sum, and once more when the reduces are written, after the race
    (1, true, Holds::Nobody, ONCE, TWICE),
];

#[test]
fn read_before_each_point(rt: HostRuntime) -> Result<(), Fail> {
    let heap = Refusing::none(rt.alloc());
    let d = SegDes::from_lengths(&heap, &[1, 1, 1, 1])?;
    for (workers, reduces, holds, notes, in_all) in ROWS {
        let reads = words(0);
        let gate = Noting {
            watch: Watch::new(rt.alloc(), Race::Scan, 4, workers, holds)?,
            reads: &reads,
            notes: words(9),
        };
        let elements = elements(&reads);
        let config = Config::new(1, workers)?;
        let (sums, right) = if reduces {
            let sums = seg_reduce_readings::<_, _, Add, _, Counting, _>(
                &rt, &heap, config, &elements, &d, &gate,
            )?;
            (sums, [3, 1, 7, 0])
        } else {
            let sums = scan_readings::<_, _, Add, _, Counting, _>(
                &rt, &heap, config, &elements, &gate,
            )?;
            (sums, [0, 3, 4, 11])
        };
        assert!(rt; sums.as_slice() == right.as_slice());
        assert!(rt;
            gate.watch.saw_all() && hold(&gate.notes, &notes),
            "{notes:?}"
        );
        assert!(rt; hold(&reads, &in_all), "{notes:?}");
    }
    Ok(())
}
