//! How a fork cuts threads in two.

ghost use Rattle.std.specs.Prelude.{◌≡◌, ◌<◌, ◌≤◌};
ghost use Rattle.sharing.specs.Shares.{first_of_two};

use crate::LONGEST_CHAIN;

/// How many of `threads` threads a fork gives to the thread that it starts; the forking thread continues with the others. One, so
/// that it starts all others itself; half of them if there are more than eight.
pub fn first_of_two(threads: usize) -> usize
    requires { 2 ≤ threads }
    ensures exact { result ≡ first_of_two threads }
    ensures least { 1 ≤ result }
    ensures greatest { result < threads }
{
    if threads <= LONGEST_CHAIN {
        1
    } else {
        threads / 2
    }
}
