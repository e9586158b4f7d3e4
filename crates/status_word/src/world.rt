//! The world of workers: words, a claim word and the workers' states, in which one worker takes one step at a time.

ghost use Rattle.std.specs.Prelude.{◌≡◌, ◌+◌, ◌<◌, ◌≤◌, IfOk, length, replicate};
ghost use Rattle.std.specs.List.{All, AllPass};
ghost use Rattle.cvl_base.specs.Limits.{most_elements};
ghost use Rattle.cvl_base.specs.SegmentMonoid.{is_seg_item};
ghost use Rattle.status_word.specs.Codings.{coding};
ghost use Rattle.status_word.specs.Reached.{stepped_of};
ghost use Rattle.status_word.specs.Worlds.{left_of, local_at, new_scene, scene_after, step_of, steps_of};

use crate::action::Action;
use crate::local::{Local, next};
use crate::moves::{answer_to, claims_after, write_word};
use crate::word_laws::know_coding;
use cvl_base::{Memory, NoResources, Packed};
use std::alloc::Allocator;
use std::marker::Model;

/// What a worker did in its turn.
#[derive(Clone, Copy, Debug)]
pub enum Stepped<T> {
    /// It took this step.
    Took(Action<T>),
    /// It has stopped, and took none.
    Idle,
}

/// A claim word, a word for each tile, and the state of each worker, over tiles given by their sums. Its model is these four
/// lists and numbers, and each world came from a new one by steps of its workers.
///
/// Source: Merrill and Garland's decoupled look-back, as an interleaving of atomic steps.
#[derive(Drop)]
pub struct World<M: Packed, A: Allocator> {
    sums: Vec<(bool, M::Item), A>,
    claims: u64,
    words: Vec<u64, A>,
    locals: Vec<Local<M::Item>, A>,
}

impl<M: Packed, A: Allocator> Model for World<M, A> {
    ghost use Rattle.status_word.specs.Worlds.{Scene};
    ghost use Rattle.status_word.specs.Codings.{coding_of};
    ghost use Rattle.status_word.specs.Reached.{IsReached};

    ghost Value = { Scene M.Item };

    ghost view = { λ w. record { sums = w.sums.items; claims = w.claims; words = w.words.items; locals = w.locals.items } };

    ghost invariant = { λ w. IsReached M.is_item (coding_of M.join M.unit M.to_word M.from_word)
        (record { sums = w.sums.items; claims = w.claims; words = w.words.items; locals = w.locals.items }) };
}

impl<M: Packed, A: Memory> World<M, A> {
    /// A new world: nothing is claimed, each word is 0, and each of the `actors` is ready. The sums must be items, and at
    /// most 4,194,304.
    pub fn new(
        alloc: A,
        sums: Vec<(bool, M::Item), A>,
        actors: u32,
    ) -> Result<World<M, A>, NoResources>
        requires few { length sums.items ≤ most_elements }
        requires items { AllPass (is_seg_item M.is_item) sums.items }
        ensures { IfOk result (λ w. w ≡ new_scene sums.items actors) }
    {
        let words = filled(alloc, sums.len(), 0)?;
        let locals = filled(alloc, actors as usize, Local::Ready)?;
        Ok(World {
            sums,
            claims: 0,
            words,
            locals,
        })
    }

    /// The worker `actor` takes its step; it must be one of the workers. It takes no memory.
    pub fn step(&mut self, actor: u32) -> Stepped<M::Item>
        requires { actor < length self.old.locals }
        ensures world { self.new
            ≡ step_of (coding M.Packed) self.old actor }
        ensures stepped { result ≡ stepped_of (local_at self.old actor) }
    {
        know_coding::<M>();
        let local = self.locals[actor as usize];
        match local.action() {
            None => Stepped::Idle,
            Some(action) => {
                let answer = answer_to::<M>(
                    self.sums.as_slice(),
                    self.claims,
                    self.words.as_slice(),
                    action,
                );
                self.claims = claims_after(self.claims, action);
                write_word::<M, A>(self.sums.as_slice(), &mut self.words, action);
                self.locals[actor as usize] = next::<M>(local, answer);
                Stepped::Took(action)
            }
        }
    }

    /// Each of these workers takes its step in turn; returns how many steps were taken. It takes no memory.
    ///
    /// A step taken lowers what is left by at least one, so there are at most 3n + n(n-1) + W of them from a new world of n
    /// tiles and W workers on.
    pub fn run(&mut self, actors: &[u32]) -> u64
        requires { All (λ a. a < length self.old.locals) actors.now }
        ensures world { self.new
            ≡ scene_after (coding M.Packed) self.old actors.now }
        ensures steps { result
            ≡ steps_of (coding M.Packed) self.old actors.now }
        ensures bound { result + left_of self.new ≤ left_of self.old }
    {
        let mut steps = 0;
        for actor in actors {
            match self.step(*actor) {
                Stepped::Took(_) => steps += 1,
                Stepped::Idle => {}
            }
        }
        steps
    }

    /// The words of the tiles, in order.
    pub fn words(&self) -> &[u64]
        ensures { result.now ≡ self.now.words }
    {
        self.words.as_slice()
    }

    /// The claim word: how many claims were made.
    pub fn claim_word(&self) -> u64
        ensures { result ≡ self.now.claims }
    {
        self.claims
    }

    /// The states of the workers, in order.
    pub fn locals(&self) -> &[Local<M::Item>]
        ensures { result.now ≡ self.now.locals }
    {
        self.locals.as_slice()
    }
}

/// A vector of `count` times the same value.
fn filled<T: Copy, A: Memory>(alloc: A, count: usize, value: T) -> Result<Vec<T, A>, NoResources>
    ensures { IfOk result (λ v. v.items ≡ replicate count value) }
{
    let mut values = Vec::with_capacity(alloc, count)?;
    values.resize(count, value)?;
    Ok(values)
}
