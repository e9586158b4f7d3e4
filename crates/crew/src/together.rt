//! The workers of a crew, each in a thread of its own where one can be made.

ghost use Rattle.std.specs.Prelude.{◌≡◌, ◌+◌, ◌≤◌, ◌++◌, [], IfOk, IsTrue, map, vec_len};
ghost use Rattle.std.specs.List.{All};
ghost use Rattle.cvl_base.specs.Limits.{most_workers};
ghost use Rattle.crew.specs.Crews.{AreNewSeats, IsCrewed};
ghost use Rattle.crew.specs.Facts.{HasFacts};
ghost use Rattle.crew.specs.Pieces.{ArePiecesOf, given_to};
ghost use denote.Param.Send.{IsSync, IsSend, Frees};

use crate::gate::Gate;
use crate::work::Work;
use crate::worker::take_tiles;
use cvl_base::{Memory, NoResources};
use sharing::{ThreadCount, first_of_two};
use std::alloc::Allocator;
use std::marker::PhantomData;
use std::thread::{Threads, join};
use tile_plan::Piece;

/// What a crew made, and the seats that it was handed.
#[derive(Drop)]
pub struct Crewed<W: Work, A: Allocator> {
    /// The pieces of the tiles, in no particular order.
    pub pieces: Vec<Piece<W::Item, A>, A>,
    /// The seats, to each of which a claim has answered that no tile is left.
    pub seats: Vec<W::Seat, A>,
}

/// One worker for each seat, numbered from 0 in the order of the seats, claims tiles until none is left.
///
/// There is one seat or more, at most as many as there are `workers`, all of the work's board, to none of which a tile was given
/// before. A worker passes `Claimed` before it works at a tile, and `Finished` after it has the tile's items. The thread that
/// calls starts one for the last seat, then one for the seat before it, and so on, and is the first worker itself; of more than
/// eight seats it gives half to the first thread that it starts. Where no thread can be made the workers take their turns. With
/// one seat no thread is started. At the end each seat has the fact of each tile that was given to it. Where a worker is out of
/// memory the others end as usual, and the call answers `NoResources`.
pub fn run_crew<R: Threads + Sync, A: Memory, W: Work, G: Gate>(
    rt: &R,
    alloc: A,
    workers: ThreadCount,
    work: &W,
    seats: Vec<W::Seat, A>,
    gate: &G,
) -> Result<Crewed<W, A>, NoResources>
    requires some { 1 ≤ vec_len seats }
    requires at_most { vec_len seats ≤ workers }
    requires of_board { All (λ seat. W.IsSeat work.now seat) seats.items }
    requires fresh { All (λ seat. W.given seat ≡ []) seats.items }
    ensures as_many { IfOk result (λ crewed. vec_len crewed.seats ≡ vec_len seats) }
    ensures of_board { IfOk result (λ crewed. All (λ seat. W.IsSeat work.now seat) crewed.seats.items) }
    ensures done { IfOk result (λ crewed. All (λ seat. IsTrue (W.is_done seat)) crewed.seats.items) }
    ensures facts { IfOk result (λ crewed. All (HasFacts (W.HasFact work.now) W.given) crewed.seats.items) }
    ensures pieces { IfOk result (λ crewed. ArePiecesOf (W.count work.now) (W.items work.now)
        (given_to W.given crewed.seats.items)
        (map (λ p. (p.tile, p.items.items)) crewed.pieces.items)) }
{
    // for the proof alone: its contract bounds the number of workers
    let _bound = workers.get();
    run_from(rt, alloc, work, 0, seats, true, gate)
}

/// The same as [`run_crew`] for a work that is done for the facts of its tiles: what a tile is made into is let go, so that
/// no tile keeps memory. It answers the seats.
pub fn run_crew_for_facts<R: Threads + Sync, A: Memory, W: Work, G: Gate>(
    rt: &R,
    alloc: A,
    workers: ThreadCount,
    work: &W,
    seats: Vec<W::Seat, A>,
    gate: &G,
) -> Result<Vec<W::Seat, A>, NoResources>
    requires some { 1 ≤ vec_len seats }
    requires at_most { vec_len seats ≤ workers }
    requires of_board { All (λ seat. W.IsSeat work.now seat) seats.items }
    requires fresh { All (λ seat. W.given seat ≡ []) seats.items }
    ensures as_many { IfOk result (λ left. vec_len left ≡ vec_len seats) }
    ensures of_board { IfOk result (λ left. All (λ seat. W.IsSeat work.now seat) left.items) }
    ensures done { IfOk result (λ left. All (λ seat. IsTrue (W.is_done seat)) left.items) }
    ensures facts { IfOk result (λ left. All (HasFacts (W.HasFact work.now) W.given) left.items) }
{
    // for the proof alone: its contract bounds the number of workers
    let _bound = workers.get();
    let crewed = run_from(rt, alloc, work, 0, seats, false, gate)?;
    Ok(crewed.seats)
}

/// `run_crew` for the workers from number `first` on, with the pieces of their tiles or without.
#[cycle(crew)]
fn run_from<R: Threads + Sync, A: Memory, W: Work, G: Gate>(
    rt: &R,
    alloc: A,
    work: &W,
    first: u32,
    mut seats: Vec<W::Seat, A>,
    with_pieces: bool,
    gate: &G,
) -> Result<Crewed<W, A>, NoResources>
    requires at_most { first + vec_len seats ≤ most_workers }
    requires seats { AreNewSeats (W.IsSeat work.now) W.given seats.items }
    ensures { IfOk result (λ c. IsCrewed (W.count work.now) (W.items work.now)
        (W.IsSeat work.now) (W.HasFact work.now) W.given W.is_done
        (vec_len seats) with_pieces c.seats.items (map (λ p. (p.tile, p.items.items)) c.pieces.items)) }
{
    if seats.len() == 1 {
        let pieces = take_tiles(alloc, work, first, &mut seats[0], with_pieces, gate)?;
        return Ok(Crewed { pieces, seats });
    }
    // the last ones, which are few, so that few seats are moved
    let others = seats.split_off(seats.len() - first_of_two(seats.len()))?;
    run_both(rt, alloc, work, first, seats, others, with_pieces, gate)
}

/// `run_crew` for two lists of seats, the second in a thread of its own, the workers numbered from `first` on.
#[cycle(crew)]
fn run_both<R: Threads + Sync, A: Memory, W: Work, G: Gate>(
    rt: &R,
    alloc: A,
    work: &W,
    first: u32,
    seats: Vec<W::Seat, A>,
    others: Vec<W::Seat, A>,
    with_pieces: bool,
    gate: &G,
) -> Result<Crewed<W, A>, NoResources>
    requires at_most { first + vec_len seats + vec_len others ≤ most_workers }
    requires seats { AreNewSeats (W.IsSeat work.now) W.given seats.items }
    requires others { AreNewSeats (W.IsSeat work.now) W.given others.items }
    ensures { IfOk result (λ c. IsCrewed (W.count work.now) (W.items work.now)
        (W.IsSeat work.now) (W.HasFact work.now) W.given W.is_done
        (vec_len seats + vec_len others) with_pieces c.seats.items (map (λ p. (p.tile, p.items.items)) c.pieces.items)) }
{
    let next = first + seats.len() as u32;
    // a thread's closure must capture each type that its result names
    let item: PhantomData<W::Item> = PhantomData;
    let front = move || -> Result<Crewed<W, A>, NoResources>
        requires { IsSync R.row × IsSync W.row × IsSync G.row × IsSend W.Seat.row × IsSend W.Item.row × IsSend A.row
            × Frees A.Allocator A.dealloc_token
            × (first + vec_len seats ≤ most_workers) × AreNewSeats (W.IsSeat work.now) W.given seats.items }
        ensures { IfOk result (λ c. IsCrewed (W.count work.entry.now) (W.items work.entry.now)
            (W.IsSeat work.entry.now) (W.HasFact work.entry.now) W.given W.is_done
            (vec_len seats) with_pieces c.seats.items (map (λ p. (p.tile, p.items.items)) c.pieces.items)) }
    {
        let _named = item;
        run_from(rt, alloc, work, first, seats, with_pieces, gate)
    };
    let back = move || -> Result<Crewed<W, A>, NoResources>
        requires { IsSync R.row × IsSync W.row × IsSync G.row × IsSend W.Seat.row × IsSend W.Item.row × IsSend A.row
            × Frees A.Allocator A.dealloc_token
            × (next + vec_len others ≤ most_workers) × AreNewSeats (W.IsSeat work.now) W.given others.items }
        ensures { IfOk result (λ c. IsCrewed (W.count work.entry.now) (W.items work.entry.now)
            (W.IsSeat work.entry.now) (W.HasFact work.entry.now) W.given W.is_done
            (vec_len others) with_pieces c.seats.items (map (λ p. (p.tile, p.items.items)) c.pieces.items)) }
    {
        let _named = item;
        run_from(rt, alloc, work, next, others, with_pieces, gate)
    };
    let (back, front) = join(rt, back, front);
    both(front?, back?)
}

/// What two crews made, and the seats of both.
fn both<A: Memory, W: Work>(
    mut front: Crewed<W, A>,
    mut back: Crewed<W, A>,
) -> Result<Crewed<W, A>, NoResources>
    ensures pieces { IfOk result (λ all. all.pieces.items ≡ front.pieces.items ++ back.pieces.items) }
    ensures seats { IfOk result (λ all. all.seats.items ≡ front.seats.items ++ back.seats.items) }
{
    front.pieces.append(&mut back.pieces)?;
    front.seats.append(&mut back.seats)?;
    Ok(front)
}
