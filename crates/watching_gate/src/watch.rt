//! The gate.

use crate::points::{Holds, Race, place_of};
use crew::{Gate, Point};
use std::alloc::{AllocError, Global};
use std::sync::atomic::{AtomicBool, AtomicU64, Ordering};
use std::thread::yield_now;

/// The most looks of a held worker at whether it may continue. After each look it lets another thread run: on a busy machine the
/// worker that it waits for may itself wait for a processor.
const TURNS: u64 = 10_000_000;

/// A gate that sees whether each tile's points are passed in order, each once on each board, by a worker that works at no
/// other tile meanwhile, whether each worker takes its tiles in ascending order, and whether no tile of a board is claimed before
/// all tiles of the boards before are finished. So one worker passes all points of tile 0,
/// then all of tile 1, and so on; and two workers that have one number are seen once both have a tile.
#[derive(Drop)]
pub struct Watch {
    race: Race,
    holds: Holds,
    /// How many points of each tile were passed.
    passed: Vec<AtomicU64>,
    /// The last point that each worker passed, of all points, counted from 1 on tile by tile and board by board; 0 if it passed
    /// none.
    last: Vec<AtomicU64>,
    claimed: AtomicU64,
    finished: AtomicU64,
    out_of_order: AtomicBool,
    overdue: AtomicBool,
}

/// `count` words, each 0.
fn zeros(alloc: Global, count: u32) -> Result<Vec<AtomicU64>, AllocError> {
    let mut words = Vec::new(alloc);
    for _ in 0..count {
        words.push(AtomicU64::new(0))?;
    }
    Ok(words)
}

impl Watch {
    /// A gate for a race of so many workers, numbered from 0, for so many tiles.
    pub fn new(
        alloc: Global,
        race: Race,
        tiles: u32,
        workers: u32,
        holds: Holds,
    ) -> Result<Watch, AllocError> {
        Ok(Watch {
            race,
            holds,
            passed: zeros(alloc, tiles)?,
            last: zeros(alloc, workers)?,
            claimed: AtomicU64::new(0),
            finished: AtomicU64::new(0),
            out_of_order: AtomicBool::new(false),
            overdue: AtomicBool::new(false),
        })
    }

    /// Whether this worker may pass this point now; it is then recorded as passed.
    fn is_in_order(&self, worker: u32, point: Point) -> bool {
        let (tile, _) = place_of(point);
        let (Some(passed), Some(last)) = (
            self.passed.get(tile as usize),
            self.last.get(worker as usize),
        ) else {
            return false;
        };
        let before_here = passed.fetch_add(1, Ordering::SeqCst);
        let board = self.race.board(before_here);
        let Some(number) = board.number(point) else {
            return false;
        };
        let tiles = self.passed.len() as u64;
        let tiles_before = u64::from(tile).wrapping_mul(board.points);
        let points_before = tiles.wrapping_mul(board.points_before);
        let here = points_before
            .wrapping_add(tiles_before)
            .wrapping_add(number);
        let before = last.swap(here.wrapping_add(1), Ordering::SeqCst);
        let follows = if number == 0 {
            before % board.points == 0 && before <= here
        } else {
            before == here
        };
        let finished = self.finished.load(Ordering::SeqCst);
        let comes_after = finished >= tiles.wrapping_mul(board.boards_before);
        before_here.wrapping_sub(board.points_before) == number && follows && comes_after
    }

    /// Counts the tiles that were given and those that are finished.
    fn count(&self, point: Point) {
        match point {
            Point::Claimed(_) => self.claimed.fetch_add(1, Ordering::SeqCst),
            Point::Finished(_) => self.finished.fetch_add(1, Ordering::SeqCst),
            _ => 0,
        };
    }

    /// Waits until this word is so great.
    fn wait_for(&self, word: &AtomicU64, least: u64) {
        for _ in 0..TURNS {
            if word.load(Ordering::SeqCst) >= least {
                return;
            }
            yield_now();
        }
        self.overdue.store(true, Ordering::SeqCst);
    }

    /// Waits until all tiles but one are finished.
    fn wait_for_others(&self) {
        let others = (self.passed.len() as u64).saturating_sub(1);
        self.wait_for(&self.finished, others);
    }

    /// Waits until this word of several is so great, if there is such a word.
    fn wait_for_one(&self, words: &[AtomicU64], number: u32, least: u64) {
        if let Some(word) = words.get(number as usize) {
            self.wait_for(word, least);
        }
    }

    /// Holds the worker at this point, if it is one to be held there.
    fn hold(&self, worker: u32, point: Point) {
        match (self.holds, point) {
            (Holds::FirstTiles(tiles), Point::Claimed(_)) => self.wait_for(&self.claimed, tiles),
            (Holds::TileZero(at), Point::Claimed(1)) => {
                self.wait_for_one(&self.passed, 0, place_of(at).1.wrapping_add(1));
            }
            (Holds::TileZero(at), _) if at == point => self.wait_for_others(),
            (Holds::UntilOthers(at), _) if at == point => self.wait_for_others(),
            (Holds::Worker(held), Point::Claimed(_)) if held == worker => self.wait_for_others(),
            (Holds::Worker(held), Point::Claimed(_)) => {
                self.wait_for_one(&self.last, held, 1);
            }
            _ => {}
        }
    }

    /// Whether every point of every tile was passed on each board, in order, and no worker waited in vain.
    pub fn saw_all(&self) -> bool {
        let each = self.race.points();
        let mut all = !self.out_of_order.load(Ordering::SeqCst)
            && !self.overdue.load(Ordering::SeqCst);
        for passed in &self.passed {
            all &= passed.load(Ordering::SeqCst) == each;
        }
        all
    }
}

impl Gate for Watch {
    fn pass(&self, worker: u32, point: Point) {
        if !self.is_in_order(worker, point) {
            self.out_of_order.store(true, Ordering::SeqCst);
        }
        self.count(point);
        self.hold(worker, point);
    }
}
