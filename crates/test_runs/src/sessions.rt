//! A session by its calls: what a call that was refused memory gives when it is made again, that one with a fault changes
//! nothing, and that an input stays what it is after a name was bound to it and then to something else.

use refusing_memory::{Flaw, Refusal, refuse_each};
use std::test::Fail;
use std::thread::Threads;
use test_fixtures::sessions::show;

/// Three values with their texts, a call with a fault, which changes no name, an input that is asked for twice, and two names
/// at once.
const LINES: &str = "l = input 2
v = input 3
d = mke_fov l
write v d
s = add_sez v d
write s d
r = add_rez v d
write r
a = input 4
a = div_wuz a a
b = sub_wuz q 1
write a
write b
a = sub_wuz a a
write a
b = input 4
write b
v d = nested 4
v d = nested 1
write v d";

/// What the lines show.
const SHOWN: &str = "v = [[] [5 1] [] [7 7 1] []]
s = [[] [0 5] [] [0 7 14] []]
r = [0 6 0 15 0]
line 0: fault 8 DivideByZero at 1
line 0: fault 4 UnknownName
a = [1 0]
line 0: fault 4 UnknownName
a = [0 0]
b = [1 0]
line 0: fault 15 BadInput at 0
v = [[1 2] [] [3]]
";

/// How many requests these lines make, each of which is refused once.
fn requests_of<R: Threads + Sync + AllocGlobal>(rt: &R) -> Result<u64, Flaw> {
    refuse_each(
        rt.alloc(),
        Refusal::Only,
        |heap| show(rt, heap, rt.alloc(), LINES, SHOWN),
        |answer, _| *answer == Ok(true),
    )
}

#[test]
fn made_again(rt: HostRuntime) -> Result<(), Fail> {
    let requests = requests_of(&rt)?;
    // four inputs, eight values and five texts
    assert!(rt; requests >= 17, "{requests}");
    Ok(())
}
