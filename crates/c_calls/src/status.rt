//! What an export returns, and what it leaves in its caller's room.

ghost use Rattle.std.specs.Prelude.{◌≡◌, ◌≢◌, Err, List, Ok, Result, length, MatchResult};
ghost use Rattle.cvl_base.specs.declared.fault.Fault.{Fault};
ghost use Rattle.cvl_base.specs.declared.fault.FaultNo.TheVariants as no;
ghost use Rattle.cvl_base.specs.Faults.{fault};
ghost use Rattle.cvl_base.specs.Gives.{Gives};
ghost use Rattle.cvl_base.specs.Rooms.{Overwrites, OverwritesOr};
ghost use Rattle.c_calls.specs.Told.{FrontToldOr, Told, ToldOr, at_front, done, front_of, in_room, status_of};

use cvl_base::{Fault, FaultNo, Refused, check_agree};
use std::alloc::Global;

/// What an export returns: a number, and the place of a fault that has one.
#[repr(C)]
#[derive(Clone, Copy, Debug, PartialEq, Eq)]
pub struct CvlStatus {
    /// 0 if all is done, the number of a fault, or 100 if memory ran out.
    pub number: u32,
    /// The place of the fault, counted from 0, or -1.
    pub place: i64,
}

/// The status of a call that is done.
pub fn done() -> CvlStatus
    ensures { result ≡ done }
{
    CvlStatus {
        number: 0,
        place: -1,
    }
}

/// The status of a call that has no value.
pub fn status_of(refused: Refused) -> CvlStatus
    ensures { result ≡ status_of refused }
{
    match refused {
        Refused::Fault(fault) => CvlStatus {
            number: fault.number.number(),
            place: fault.place.map_or(-1, i64::from),
        },
        Refused::NoResources => CvlStatus {
            number: 100,
            place: -1,
        },
    }
}

/// The value of a check; without one, the export ends here and returns why.
#[macro_export]
macro_rules! or_tell {
    ($check:expr) => {
        match $check {
            Ok(value) => value,
            Err(refused) => return $crate::status::status_of(refused.into()),
        }
    };
}

/// Copies items into a room of their length; or `LengthMismatch`, without a place, and the room stays as it is.
fn put<T: Copy>(items: &[T], room: &mut [T]) -> Result<(), Fault>
    ensures { MatchResult result (λ _. (length items.now ≡ length room.old) × (room.new ≡ items.now))
        (λ f. (f ≡ fault no.LengthMismatch) × (length items.now ≢ length room.old) × (room.new ≡ room.old)) }
{
    check_agree(items.len(), room.len())?;
    room.copy_from_slice(items);
    Ok(())
}

/// Copies a call's items into a room of their length, and returns the status. Without items the room is as before.
pub fn told<T: Copy>(answer: Result<Vec<T, Global>, Refused>, room: &mut [T]) -> CvlStatus
    ensures { (meaning : Result (List T) Fault) → Gives (λ v. v.items) answer meaning
        → ToldOr (in_room (length room.old) meaning) result room.old room.new }
{
    match answer {
        Ok(items) => match put(&items, room) {
            Ok(()) => done(),
            Err(fault) => status_of(fault.into()),
        },
        Err(refused) => status_of(refused),
    }
}

/// Copies items to the front of a room, whose rest stays as it is; or `LengthMismatch`, without a place, if the room is too
/// short, which then stays as it is.
pub fn put_in_front<T: Copy>(items: &[T], room: &mut [T]) -> Result<(), Fault>
    ensures { MatchResult result (λ _. at_front room.old items.now ≡ Ok room.new)
        (λ f. (at_front room.old items.now ≡ Err f) × (room.new ≡ room.old)) }
{
    if items.len() > room.len() {
        return Err(Fault::new(FaultNo::LengthMismatch));
    }
    let (front, _) = room.split_at_mut(items.len());
    front.copy_from_slice(items);
    Ok(())
}

/// Copies the items of a call to the front of a room, and their number to the count, for a caller who may not know it; returns
/// the status. If the room is too short, it is as before, and the count is the length that it needs. Without items both are as
/// before.
pub fn told_in_front<T: Copy>(
    answer: Result<Vec<T, Global>, Refused>,
    room: &mut [T],
    count: &mut usize,
) -> CvlStatus
    ensures { (meaning : Result (List T) Fault) → Gives (λ v. v.items) answer meaning
        → FrontToldOr meaning result (front_of room.old count.old) (front_of room.new count.new) }
{
    match answer {
        Ok(items) => {
            *count = items.len();
            match put_in_front(&items, room) {
                Ok(()) => done(),
                Err(fault) => status_of(fault.into()),
            }
        }
        Err(refused) => status_of(refused),
    }
}

/// The status of a call that may write to its room.
pub fn told_over<T>(answer: Result<(), Fault>) -> CvlStatus
    ensures { (meaning : Result (List T) Fault) (before now : List T) → Overwrites meaning answer before now
        → Told meaning result before now }
{
    match answer {
        Ok(()) => done(),
        Err(fault) => status_of(fault.into()),
    }
}

/// The status of a call that takes memory and may write to its room.
pub fn told_over_or<T>(answer: Result<(), Refused>) -> CvlStatus
    ensures { (meaning : Result (List T) Fault) (before now : List T) → OverwritesOr meaning answer before now
        → ToldOr meaning result before now }
{
    match answer {
        Ok(()) => done(),
        Err(refused) => status_of(refused),
    }
}

/// Copies the value of a call that takes no memory, and returns the status. Without a value the room is as before.
pub fn told_one<T: Copy>(answer: Result<T, Fault>, room: &mut T) -> CvlStatus
    ensures { Told answer result room.old room.new }
{
    match answer {
        Ok(value) => {
            *room = value;
            done()
        }
        Err(fault) => status_of(fault.into()),
    }
}
