//! Which points workers pass, and where they are held.

ghost use Rattle.std.specs.Prelude.{◌≤◌};

use crew::Point;

/// What workers race for.
#[derive(Clone, Copy)]
pub enum Race {
    /// The tiles of a scan or a reduce, at which they pass four points.
    Scan,
    /// Least places, on so many boards in turn. At each tile they pass `Claimed` and `Finished`.
    Leasts(u32),
    /// The tiles of a scan, and then the first of these tiles that has something, on a board of their numbers: a scan that
    /// never wraps.
    ScanThenLeast,
}

/// One of the boards that give out the tiles, in turn.
#[derive(Clone, Copy)]
pub struct Board {
    /// How many boards come before it, and how many points there are at a tile on these.
    pub boards_before: u64,
    pub points_before: u64,
    /// How many points there are at a tile.
    pub points: u64,
}

impl Board {
    /// Which of the points at a tile this is, counted from 0; none if it isn't one of them.
    pub fn number(self, point: Point) -> Option<u64> {
        match (self.points, point) {
            (4, _) => Some(place_of(point).1),
            (_, Point::Claimed(_)) => Some(0),
            (_, Point::Finished(_)) => Some(1),
            _ => None,
        }
    }
}

impl Race {
    /// How many points there are at a tile, on all boards.
    pub fn points(self) -> u64 {
        match self {
            Race::Scan => 4,
            Race::Leasts(boards) => u64::from(boards).wrapping_mul(2),
            Race::ScanThenLeast => 6,
        }
    }

    /// The board that has a tile's next point, after so many of its points were passed.
    pub fn board(self, passed: u64) -> Board
        ensures { 1 ≤ result.points }
    {
        let scans = match self {
            Race::Leasts(_) => 0,
            _ => 1,
        };
        if passed < scans * 4 {
            return Board {
                boards_before: 0,
                points_before: 0,
                points: 4,
            };
        }
        let leasts = (passed - scans * 4) / 2;
        Board {
            boards_before: leasts.saturating_add(scans),
            points_before: leasts.saturating_mul(2).saturating_add(scans * 4),
            points: 2,
        }
    }
}

/// The tile of a point, and which of the four points at a tile it is, counted from 0.
pub fn place_of(point: Point) -> (u32, u64) {
    match point {
        Point::Claimed(tile) => (tile, 0),
        Point::Summed(tile) => (tile, 1),
        Point::Looked(tile) => (tile, 2),
        Point::Finished(tile) => (tile, 3),
    }
}

/// Which workers are held, and until when. A worker is held only on the first board.
#[derive(Clone, Copy)]
pub enum Holds {
    /// None.
    Nobody,
    /// Each worker at its first tile, until this many tiles were given.
    FirstTiles(u64),
    /// The worker of tile 0 at this point of it, until all other tiles are finished, and the worker of tile 1 at its claim
    /// until the former is held.
    TileZero(Point),
    /// The worker that passes this point, until all other tiles are finished.
    UntilOthers(Point),
    /// The worker of this number at its first tile, until all other tiles are finished, and the other workers at their
    /// claims until the former is held.
    Worker(u32),
}
