//! A worker's seat at any board.

use crate::least_pass::LeastPass;
use atomic_table::Seat;
use status_word::Pass;
use std::marker::Model;

/// What proofs know of a worker at some board: its pass. Passes differ in what the words of their board say, but each has a hand.
pub trait Handed {
    ghost use Rattle.status_word.specs.declared.pass.Hand.{Hand};

    ghost hand: { Self → Hand };
}

impl Handed for LeastPass {
    ghost hand = { λ p. p.hand };
}

impl<I> Handed for Pass<I> {
    ghost hand = { λ p. p.hand };
}

/// One worker's part of a board: its seat at the board's words, and whether a claim has answered that no tile is left. Its model
/// is the board it belongs to, what the worker did, and that.
///
/// The fields are for boards: their values have to keep what the seat's pass says.
#[derive(Drop)]
pub struct BoardSeat<P: Handed> {
    /// The seat at the board's words.
    pub seat: Seat<(), P>,
    /// Whether a claim has answered that no tile is left.
    pub done: bool,
}

impl<P: Handed> Model for BoardSeat<P> {
    ghost use Rattle.std.specs.Prelude.{◌≡◌, [], if◌then◌else◌};
    ghost use Rattle.least_boards.specs.Seats.{Seated};

    ghost Value = { Seated P };

    ghost view = { λ s. record { id = s.seat.table_id; pass = s.seat.me.0; is_done = s.done } };

    ghost invariant = { λ s.
        (s.seat.me.1 ≡ [])
        × ((P.hand s.seat.me.0).done ≡ (if s.done then 1 else 0))
        × ((P.hand s.seat.me.0).share ≡ 1) };
}

/// A seat at a least board.
pub type LeastSeat = BoardSeat<LeastPass>;
