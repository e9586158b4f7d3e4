//! A permute in one walk by several threads, each of which owns a range of the result and a mark for each place of it, a bit.
//! Each reads all indices, writes and marks the places of its range to which an index sends, and counts its marks. So no two
//! threads write one place, no place is waited for, and each thread's writes lie close together.

ghost use Rattle.std.specs.Prelude.{◌≡◌, ◌≤◌, length, IfOk, is_none, is_some, vec_len};
ghost use Rattle.cvl_base.specs.Limits.{most_places};
ghost use Rattle.cvl_base.specs.Permutes.{first_fault, wrongs};
ghost use Rattle.permute_walks.specs.OneWalk.{IfMade};
ghost use Rattle.permute_walks.specs.Senders.{count_destinations, senders_of, written_over};

use crate::marks::{WORD_BITS, count_marks, words_for};
use crate::ranges::write_range;
use cvl_base::{Memory, NoResources};
use forks::{SharedWork, run_shared};
use fresh::{Writer, write_in_runs};
use sent_places::Destinations;
use sharing::{ThreadCount, share_of_first};
use std::thread::Threads;

/// How many places take part.
#[inline(never)]
fn count_destinations<D: Destinations>(destinations: &D) -> usize
    ensures { result ≡ count_destinations (D.destinations destinations.now) }
{
    let mut count = 0;
    for k in 0..destinations.count() {
        let (_, takes_part) = destinations.at(k);
        if takes_part {
            count += 1;
        }
    }
    count
}

/// Sends the elements of a slice to the places from `lowest` on. Beside these stands a mark for each of them, and no two threads
/// share a word of marks. What it tells is how many are marked.
#[derive(Drop)]
struct Sends<'a, T, D: Destinations> {
    source: &'a [T],
    destinations: &'a D,
    lowest: usize,
    ghost sourced: { length source.now ≡ length (D.destinations destinations.now) },
    ghost few: { length (D.destinations destinations.now) ≤ most_places },
}

impl<'a, T: Copy, D: Destinations> SharedWork<T, u32> for Sends<'a, T, D> {
    ghost use Rattle.std.specs.Prelude.{◌≡◌, ◌+◌, ◌-◌, ◌^◌, ◌≤◌, length, min, replicate};
    ghost use Rattle.cvl_base.specs.Limits.{most_places};
    ghost use Rattle.permute_walks.specs.Marks.{words_for};
    ghost use Rattle.permute_walks.specs.Senders.{count_sent, last_senders, written_over};

    type Told = usize;

    ghost IsReady = { λ s threads out marks. (s.lowest + length out ≤ most_places)
        × (marks ≡ replicate (words_for (length out)) 0) };

    ghost Does = { λ s threads old _ out _ count. (out ≡ written_over s.source.now
        (last_senders 0 (D.destinations s.destinations.now) s.lowest (length old)) old)
        × (count ≡ count_sent (last_senders 0 (D.destinations s.destinations.now) s.lowest (length old))) };

    ghost together = { λ low high. min (low + high) (2 ^ 64 - 1) };

    fn split(
        &self,
        few: usize,
        threads: usize,
        out: &[T],
        _marks: &[u32],
    ) -> (Self, usize, usize, Self) {
        let words = share_of_first(few, threads, out.len()) / WORD_BITS;
        let middle = words * WORD_BITS;
        let low = Sends {
            source: self.source,
            destinations: self.destinations,
            lowest: self.lowest,
        };
        let high = Sends {
            source: self.source,
            destinations: self.destinations,
            lowest: self.lowest + middle,
        };
        (low, middle, words, high)
    }

    #[tactic(auto, using(crate::proofs::MarkWords::marks_count, crate::proofs::Scattered::count_marked))]
    fn run(&self, out: &mut [T], marks: &mut [u32]) -> usize {
        write_range(self.source, self.destinations, self.lowest, out, marks);
        count_marks(marks)
    }

    fn together(low: usize, high: usize) -> usize {
        low.saturating_add(high)
    }
}

/// What a permute of so many places leaves of what stands there before, in one walk, which at most `threads` threads share: the
/// element of each place's sender, or what `before` writes where it has none. None where a place is bad. `NoResources` where
/// there is no memory for the places, or for a mark for each.
pub fn permuted_shared<T, R, A, D, W>(
    rt: &R,
    alloc: A,
    threads: ThreadCount,
    source: &[T],
    destinations: &D,
    places: usize,
    before: &W,
) -> Result<Option<Vec<T, A>>, NoResources>
where
    T: Copy + Send + Sync,
    R: Threads + Sync,
    A: Memory,
    D: Destinations + Sync,
    W: Writer<T> + Sync,
    requires sourced { length source.now ≡ length (D.destinations destinations.now) }
    requires few { length (D.destinations destinations.now) ≤ most_places }
    requires few_places { places ≤ most_places }
    requires whole { places ≡ length (W.whole before.now) }
    ensures written { IfMade result (λ v.
        v.items ≡ written_over source.now (senders_of 0 (D.destinations destinations.now) places) (W.whole before.now)) }
    ensures as_long { IfMade result (λ v. vec_len v ≡ places) }
    ensures bad { IfOk result (λ found. is_none found
        ≡ is_some (first_fault 0 (wrongs places (D.destinations destinations.now)))) }
{
    let mut out = write_in_runs(rt, alloc, threads, before, places)?;
    // A bit a place is cleared sooner than threads are started for it.
    let mut marks = vec![in alloc; 0; words_for(places)]?;
    let sends = Sends {
        source,
        destinations,
        lowest: 0,
    };
    let sent = run_shared(rt, threads, &sends, &mut out, &mut marks);
    if sent == count_destinations(destinations) {
        Ok(Some(out))
    } else {
        Ok(None)
    }
}
