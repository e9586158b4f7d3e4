//! What threads share, with ample memory and with each of its requests refused in turn.

use crate::counter::Counter;
use crate::{crews, doubles, lowered_places, partitions, scan_boards, sorts, worlds};
use cvl_base::{Config, Memory, NoResources};
use refusing_memory::withstands_refusals;
use sharing::all_workers;
use std::test::Fail;
use std::thread::Threads;

/// What is made.
enum Made {
    ScanBoard,
    LeastBoard,
    World,
    /// The sums before each of four numbers, by a crew.
    Sums,
    /// The doubles of so many numbers.
    Doubles(usize),
    /// What a thread that stops early leaves.
    Early,
    /// So many numbers by their last digit.
    Partition(u16),
    /// The order, the ranks and the sort of so many keys.
    Sorts(u32),
}

/// Each, by so many workers, and how many requests it makes at least.
const ALL: &[(Made, &[u32], u64)] = &[
    (Made::ScanBoard, &[1], 3),
    (Made::LeastBoard, &[1], 3),
    // the sums, the words and the states
    (Made::World, &[1], 3),
    // the board, its seats, four pieces, their list and the whole
    (Made::Sums, &[1, 2, 4, 9], 9),
    // no number, one, fewer than threads, more, and so many that threads share them; the vector, and where it is pushed to
    (Made::Doubles(0), &[1, 3, 8], 2),
    (Made::Doubles(1), &[1, 3, 8], 2),
    (Made::Doubles(5), &[1, 3, 8], 2),
    (Made::Doubles(40), &[1, 3, 8], 2),
    (Made::Doubles(262_145), &[8], 2),
    (Made::Early, &[1], 1),
    // no number, fewer than threads or digits, and more; the numbers, the room and the counts
    (Made::Partition(0), &[1, 2, 3, 4, 5], 1),
    (Made::Partition(3), &[1, 2, 3, 4, 5], 3),
    (Made::Partition(997), &[1, 2, 3, 4, 5, 9], 3),
    // each length at which a sort goes over from insertion to digits of 8 bits, and to digits of 11, and the one before; more
    // keys than digits of 11 bits; and so many that two threads share them; the keys, what is told of them, and what each call
    // works in
    (Made::Sorts(1), &[1], 4),
    (Made::Sorts(48), &[2], 4),
    (Made::Sorts(49), &[2], 9),
    (Made::Sorts(1_535), &[2], 9),
    (Made::Sorts(1_536), &[2], 9),
    (Made::Sorts(5_000), &[2], 9),
    (Made::Sorts(262_147), &[3], 14),
];

/// Whether it is right.
fn is_right<R: Threads + Sync, A: Memory>(
    rt: &R,
    heap: A,
    made: &Made,
    config: Config,
) -> Result<bool, NoResources> {
    let threads = all_workers(config);
    match made {
        Made::ScanBoard => scan_boards::answers_by_hand(heap),
        Made::LeastBoard => lowered_places::answers_by_hand(heap),
        Made::World => worlds::answers_by_hand(heap),
        Made::Sums => crews::are_summed(rt, heap, threads, 4),
        Made::Doubles(length) => {
            doubles::are_written(rt, heap, threads, *length, &Counter::new(0))
        }
        Made::Early => doubles::keeps_what_is_written(heap),
        Made::Partition(length) => partitions::are_parted(rt, heap, threads, *length),
        Made::Sorts(length) => sorts::are_right(rt, heap, threads, *length),
    }
}

/// How many requests it makes by so many workers, each of which is refused in turn.
fn requests_of<R: Threads + Sync + AllocGlobal>(
    rt: &R,
    made: &Made,
    workers: u32,
) -> Result<u64, Fail> {
    let config = Config::new(1, workers)?;
    let requests = withstands_refusals(
        rt.alloc(),
        |heap| is_right(rt, heap, made, config),
        Ok(true),
        Err(NoResources),
    );
    Ok(requests?)
}

#[test]
fn each_request_refused(rt: HostRuntime) -> Result<(), Fail> {
    for (made, by, least) in ALL {
        for workers in *by {
            let requests = requests_of(&rt, made, *workers)?;
            assert!(rt; requests >= *least, "{requests} and not {least}");
        }
    }
    Ok(())
}
