//! The world of workers, by one list of its workers' steps that is worked out by hand.

use cvl_base::monoids::Add;
use cvl_base::{Memory, NoResources};
use status_word::{Local, Stepped, World};

/// Whether two workers over tiles of the sums 5 and 7 take ten steps, until both have stopped and both prefixes are told.
pub fn answers_by_hand<A: Memory>(alloc: A) -> Result<bool, NoResources> {
    let sums = Vec::from_slice(alloc, &[(false, 5), (false, 7)])?;
    let mut world = World::<Add, A>::new(alloc, sums, 2)?;
    let steps = world.run(&[0, 1, 1, 1, 1, 1, 0, 0, 0, 1]);
    let mut right = steps == 10 && world.claim_word() == 4;
    right &= matches!(world.step(0), Stepped::Idle) && matches!(world.step(1), Stepped::Idle);
    right &= matches!(world.locals(), [Local::Stopped, Local::Stopped]);
    // the words of the prefixes 5 and 12
    right &= world.words() == [0x8000_0000_0000_0005, 0x8000_0000_0000_000C].as_slice();
    Ok(right)
}
