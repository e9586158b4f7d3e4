//! The second walk of a permute, which writes the element of each place's sender: on several threads if the result is long, or on
//! the calling thread into the caller's room.

ghost use Rattle.std.specs.Prelude.{◌≡◌, IfOk, List, Ok, Option, Result, length, vec_len, ℕ};
ghost use Rattle.cvl_base.specs.declared.fault.Fault.{Fault};
ghost use Rattle.cvl_base.specs.Gives.{Gives, unless};
ghost use Rattle.cvl_base.specs.Rooms.{OverwritesOr, in_room};
ghost use Rattle.permute_walks.specs.Before.{IsPermuted, values_of};

use cvl_base::{Config, Memory, Refused, check_agree};
use fresh::{write_in_runs, write_over};
use permute_walks::{Before, Elements};
use sharing::threads_writing;
use std::thread::Threads;

/// At each place its sender's element, or what stood there before if it has no sender; or why the senders were not found.
pub fn elements_of_senders<T: Copy + Send + Sync, R: Threads + Sync, A: Memory>(
    rt: &R,
    alloc: A,
    config: Config,
    source: &[T],
    found: Result<Vec<u32, A>, Refused>,
    before: Before<T>,
) -> Result<Vec<T, A>, Refused>
    requires as_long { IfOk found (λ v. vec_len v ≡ length (values_of before)) }
    ensures values { (first : Option Fault) (senders : List ℕ) (meaning : Result (List T) Fault)
        → Gives (λ v. v.items) found (unless first (Ok senders)) → IsPermuted source.now before.entry meaning first senders
        → Gives (λ v. v.items) result meaning }
    ensures as_long { IfOk result (λ v. vec_len v ≡ length (values_of before.entry)) }
{
    match found {
        Ok(senders) => {
            let places = senders.len();
            let threads = threads_writing(config, places);
            let elements = Elements {
                source,
                senders: &senders,
                before,
            };
            Ok(write_in_runs(rt, alloc, threads, &elements, places)?)
        }
        Err(refused) => Err(refused),
    }
}

/// The same into a room. `LengthMismatch`, without a place, if the room is not as long as the senders.
pub fn elements_of_senders_over<T: Copy, A: Memory>(
    source: &[T],
    found: Result<Vec<u32, A>, Refused>,
    before: Before<T>,
    out: &mut [T],
) -> Result<(), Refused>
    requires as_long { IfOk found (λ v. vec_len v ≡ length (values_of before)) }
    ensures { (first : Option Fault) (senders : List ℕ) (meaning : Result (List T) Fault)
        → Gives (λ v. v.items) found (unless first (Ok senders)) → IsPermuted source.now before.entry meaning first senders
        → OverwritesOr (in_room (length out.old) meaning) result out.old out.new }
{
    match found {
        Ok(senders) => {
            check_agree(senders.len(), out.len())?;
            let elements = Elements {
                source,
                senders: &senders,
                before,
            };
            write_over(out, &elements);
            Ok(())
        }
        Err(refused) => Err(refused),
    }
}
