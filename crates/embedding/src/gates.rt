//! A gate of one's own, which counts the tiles that workers have finished.

use crew::{Gate, Point};
use cvl_base::monoids::Add;
use cvl_base::{Config, Memory, Refused};
use scan_ops::scan;
use std::sync::atomic::{AtomicU64, Ordering};
use std::thread::Threads;

/// How many tiles were finished.
#[derive(Drop)]
struct Finished {
    tiles: AtomicU64,
}

impl Gate for Finished {
    fn pass(&self, _worker: u32, point: Point) {
        if let Point::Finished(_) = point {
            self.tiles.fetch_add(1, Ordering::SeqCst);
        }
    }
}

/// The scan of five numbers, and how many tiles its workers have finished.
pub fn scan_and_tiles<R: Threads + Sync, A: Memory>(
    rt: &R,
    alloc: A,
    config: Config,
) -> Result<(Vec<i32, A>, u64), Refused> {
    let gate = Finished {
        tiles: AtomicU64::new(0),
    };
    let sums = scan::<_, _, Add, _>(rt, alloc, config, &[3, 1, 7, 0, 4], &gate)?;
    Ok((sums, gate.tiles.load(Ordering::SeqCst)))
}
