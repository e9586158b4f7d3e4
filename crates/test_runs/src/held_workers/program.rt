//! The program, whose workers are held at a gate.

use crew::Point;
use refusing_memory::Refusing;
use std::test::Fail;
use test_fixtures::hosts::Failing::Nothing;
use test_fixtures::hosts::Files;
use test_fixtures::programs::ends_as;
use watching_gate::{Holds, Race, Watch};

const FILES: Files = &[
    ("script", "a = input 1\nb = add_suz a\nwrite b\n"),
    ("numbers", "3 1 7 0"),
];

const LINE: &str = "cvl --tile 1 --workers 2 script numbers";

/// The tiles and the workers of a command line are those of the run: its gate sees four tiles, for which two workers race.
#[test]
fn held_in_the_program(rt: HostRuntime) -> Result<(), Fail> {
    let holds = Holds::UntilOthers(Point::Claimed(0));
    let heap = Refusing::none(rt.alloc());
    let gate = Watch::new(rt.alloc(), Race::Scan, 4, 2, holds)?;
    let row = (LINE, "b = [0 3 4 11]\n", "", 0);
    assert!(rt; ends_as(&rt, &heap, FILES, Nothing, &row, &gate)? && gate.saw_all());
    Ok(())
}
