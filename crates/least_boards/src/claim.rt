//! The answer to a worker that asks for a tile.

ghost use Rattle.std.specs.Prelude.{◌≡◌};
ghost use Rattle.least_boards.specs.Claims.{answer_at, is_last};

/// The answer to a claim. Tiles count from 0.
#[derive(Clone, Copy, Debug)]
pub enum Claim {
    /// This tile is the worker's alone.
    Tile(u32),
    /// No tile is left.
    Done,
}

impl Claim {
    /// The answer to a claim on a board with `count` tiles, after `claims` claims: the tile of that number, or that none is left
    /// if no tile has it. It takes no memory.
    pub fn after(claims: u64, count: u32) -> Claim
        ensures { result ≡ answer_at count claims }
    {
        if claims < u64::from(count) {
            Claim::Tile(claims as u32)
        } else {
            Claim::Done
        }
    }

    /// Whether the answer is that no tile is left. It takes no memory.
    pub fn is_done(&self) -> bool
        ensures { result ≡ is_last self.now }
    {
        matches!(*self, Claim::Done)
    }
}
