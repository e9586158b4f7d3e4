//! The room of a vector to be, while runs of it are written elsewhere.
ghost use Rattle.std.specs.Prelude.{◌≡◌, ◌-◌, ◌<◌, ◌^◌, IfOk, IsOk, [], length};
ghost use Rattle.std.specs.Vec.{vec_len, vec_capacity};
ghost use Rattle.fresh.specs.Places.{stretch, IsAllOf};

use crate::block::{Deed, give_block, take_block};
use crate::cells::Base;
use crate::run::Run;
use std::alloc::{AllocError, Allocator};
use std::marker::Model;

/// The room of a future vector: unwritten memory of an allocator, whose places are lent as a [`Run`].
///
/// It can't be dropped, so that its memory can't be lost: only [`into_vec`](Room::into_vec) ends it, with the run of all its
/// places. If a thread stops early, join what there is, written or not, or write the rest, and drop the vector.
pub struct Room<T, A: Allocator> {
    base: Base<T>,
    places: usize,
    deed: Deed<T, A>,
    vec: Vec<T, A>,
}

impl<T, A: Allocator> Model for Room<T, A> {
    ghost use Rattle.fresh.specs.Places.{Site, site_code};
    ghost use Rattle.fresh.specs.Rooms.{IsRoom};

    ghost Value = { Site };

    ghost coded = { site_code };

    ghost view = { λ r. record { block = r.base.ptr; places = r.places } };

    ghost invariant = { λ r. IsRoom r.base.ptr r.places r.deed r.vec };
}

impl<T, A: Allocator> Room<T, A> {
    /// The room for `places` items, and the run of all its places.
    pub fn new(alloc: A, places: usize) -> Result<(Room<T, A>, Run<T>), AllocError>
        ensures room { IfOk result (λ r. r.0.places ≡ places) }
        ensures fits { IfOk result (λ _. places < 2 ^ 63) }
        ensures run { IfOk result (λ r. r.1 ≡ stretch r.0.block 0 [] places) }
        ensures succeeds { places ≡ 0 → IsOk result }
    {
        Ok(Room::of(Vec::with_capacity(alloc, places)?))
    }

    /// The room of a vector, and the run of all its places, which begins with the vector's items.
    #[tactic(auto, using(crate::proofs::Places::somes_filled))]
    pub fn of(mut vec: Vec<T, A>) -> (Room<T, A>, Run<T>)
        ensures room { result.0.places ≡ vec_capacity vec }
        ensures fits { vec_capacity vec < 2 ^ 63 }
        ensures run { result.1 ≡ stretch result.0.block 0 vec.items (vec_capacity vec - vec_len vec) }
    {
        let written = vec.len();
        let places = vec.capacity();
        let (base, cells, deed) = take_block(&mut vec);
        let run = Run::begun(base, places, written, cells);
        let room = Room {
            base,
            places,
            deed,
            vec,
        };
        (room, run)
    }

    /// The vector of the items written in the run of all places.
    #[tactic(auto, using(crate::proofs::Places::somes_filled))]
    pub fn into_vec(self, run: Run<T>) -> Vec<T, A>
        requires { IsAllOf self run }
        ensures items { result.items ≡ run.items }
        ensures len { vec_len result ≡ length run.items }
        ensures capacity { vec_capacity result ≡ self.places }
    {
        let Room {
            base,
            places,
            deed,
            mut vec,
        } = self;
        let (len, cells) = run.into_cells();
        give_block(&mut vec, base, len, places, cells, deed);
        vec
    }
}
