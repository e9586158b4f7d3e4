//! How much memory one call of each family asks for: how many requests it makes, and for how many bytes in all.

use cvl_base::{Config, NoResources, Refused};
use refusing_memory::Refusing;
use shell::{MemSink, run};
use std::alloc::Global;
use std::test::Fail;
use std::thread::Threads;
use test_fixtures::hosts::{inputs_of, text_of};
use test_fixtures::memory_of_calls::{asked_by, session_before};
use test_fixtures::sessions::call_line;
use vector_handles::Session;

/// Calls, and the requests and the bytes that each of them asks for: by one worker in one tile, and by four in tiles of 100
/// elements.
type Row = (&'static str, (u64, u64), (u64, u64));

const ROWS: &[Row] = &[
    (
        "r = add_wuz i t; r = sel_wuz f i t; r = cpy_wuz i; r = int_wub f; r = dis_vuz 7 1000; r = dis_vez o d; \
         r = ind_luz 0 1 1000; r = ind_lez o p d; r = rep_vuz i 3 4; r = rep_vez i o p d",
        (1, 4_000),
        (1, 4_000),
    ),
    (
        "r = not_wub f; r = grt_wuz i t; r = and_wub f f; r = sel_wub f f f; r = boo_wuz i; r = dis_vub T 1000; r = dis_veb b d",
        (1, 1_000),
        (1, 1_000),
    ),
    ("r = div_wuz i t; r = lsh_wuz i t", (1, 4_000), (8, 4_039)),
    ("r = bck_puz i i", (1, 4_000), (8, 4_039)),
    ("r = bck_pub f i", (1, 1_000), (8, 1_039)),
    ("r = bck_pez i x d d", (1, 4_000), (9, 8_039)),
    ("r = add_suz i; r = add_sez i d", (1, 4_000), (9, 4_223)),
    ("r = ior_sub f; r = ior_seb f d", (1, 1_000), (9, 1_193)),
    ("r = add_ruz i", (0, 0), (8, 223)),
    ("r = ior_rub f", (0, 0), (8, 193)),
    ("r = add_rez i d; r = cnt_leb f d", (1, 40), (9, 263)),
    ("r = ior_reb f d", (1, 10), (9, 203)),
    ("r = tot_suz i; r = tot_sez i d", (1, 4_000), (17, 4_342)),
    ("r = tot_ruz i", (0, 0), (8, 263)),
    ("r = tot_rez i d", (1, 40), (9, 303)),
    ("r = smp_puz i i", (2, 5_000), (16, 24_062)),
    ("r = def_puz i i t", (2, 5_000), (16, 24_062)),
    ("r = smp_pub f i", (2, 2_000), (16, 21_062)),
    ("r = smp_pez i x d", (2, 4_400), (17, 28_062)),
    ("r = def_pez i x t d d", (2, 4_400), (17, 28_062)),
    ("r = sel_puz i h f", (2, 4_000), (16, 12_062)),
    ("r = sel_pez i k f d", (2, 2_400), (17, 16_062)),
    ("r = pck_luz i f", (1, 2_000), (9, 2_223)),
    ("r = pck_lez i f d", (1, 2_000), (9, 2_223)),
    ("r = pck_lub f f", (1, 500), (9, 723)),
    ("r = pck_fov f d", (3, 120), (11, 343)),
    ("r = ext_vez i o d; r = len_fos d", (1, 40), (1, 40)),
    ("i = rep_vuz i 3 4", (1, 4_000), (1, 4_000)),
    ("r = mke_fov l", (3, 120), (3, 120)),
    // the numbers that are read, and the owner that the name shares them with; then these again
    ("r = input 1", (2, 4_056), (2, 4_056)),
    ("r = input 1", (0, 0), (0, 0)),
    ("r e = nested 2", (4, 40_000), (4, 40_000)),
    ("write i", (3, 11_690), (3, 11_690)),
    ("write f", (3, 6_020), (3, 6_020)),
    ("write i d", (6, 9_153), (6, 9_153)),
    ("write d", (3, 140), (3, 140)),
    ("r = ind_lez n q c", (1, 160_000), (1, 160_000)),
    // by one worker a text that is doubled until it fits; by four 8 bytes for its beginning, 32 for two parts, 16 for their
    // counts, and 228,958 for all of it
    ("write j", (8, 579_784), (4, 229_014)),
    // a count's fault comes before memory
    (
        "r = cnt_lub f; r = len_luz i; r = ext_vuz i 3; \
         r = dis_vuz 7 -1; r = dis_vuz 7 4194305; r = ind_luz 0 1 -1; r = ind_luz 0 1 4194305",
        (0, 0),
        (0, 0),
    ),
];

/// The first row whose call asks for another amount of memory, by one worker in one tile or by four, with what it asks for.
fn first_other<R: Threads + Sync>(
    rt: &R,
    alloc: Global,
    by_four: bool,
) -> Result<Option<(&'static str, (u64, u64))>, Refused> {
    let numbers = text_of(alloc, "7", " 7", 999, "")?;
    let lists = text_of(alloc, "[[7]", " [7]", 999, "]")?;
    let heap = Refusing::none(alloc);
    let (tile, workers) = if by_four { (100, 4) } else { (65_536, 1) };
    let config = Config::new(tile, workers).unwrap();
    let inputs = [numbers.as_str(), lists.as_str()];
    let mut session = session_before(rt, &heap, config, &inputs)?;
    for (lines, one, four) in ROWS {
        let right = if by_four { *four } else { *one };
        for line in lines.split(';') {
            let asked = asked_by(rt, &heap, &mut session, line)?;
            if asked != right {
                return Ok(Some((*lines, asked)));
            }
        }
    }
    Ok(None)
}

/// A script whose text has 3,600,006 bytes, and the same without its text.
const LONG_WRITE: &str = "v = dis_vuz -2147483648 300000\nwrite v\n";

const NO_WRITE: &str = "v = dis_vuz -2147483648 300000\n";

/// How many bytes a run asks for by so many workers.
fn asked_by_run<R: Threads + Sync>(
    rt: &R,
    alloc: Global,
    workers: u32,
    script: &str,
) -> Result<u64, NoResources> {
    let heap = Refusing::none(alloc);
    let Ok(config) = Config::new(4_096, workers) else {
        return Err(NoResources);
    };
    let mut sink = MemSink::new(alloc);
    match run(
        rt,
        &heap,
        config,
        script.as_bytes(),
        Vec::new(&heap),
        &mut sink,
    ) {
        Ok(()) => Ok(heap.bytes()),
        Err(_) => Err(NoResources),
    }
}

/// How many bytes a sink with room for so many asks for.
fn asked_by_sink(alloc: Global, room: usize) -> Result<u64, NoResources> {
    let heap = Refusing::none(alloc);
    let _sink = MemSink::with_room(&heap, room)?;
    Ok(heap.bytes())
}

#[test]
fn memory_of_each_family(rt: HostRuntime) -> Result<(), Fail> {
    assert!(rt; asked_by_sink(rt.alloc(), 1_000) == Ok(1_000));
    for by_four in [false, true] {
        let other = first_other(&rt, rt.alloc(), by_four);
        assert!(rt; other == Ok(None), "{other:?}");
    }
    Ok(())
}

/// A long text takes two pieces for each worker but the one that puts them, each of 65,536 elements with twelve bytes for
/// each, and little beside. The 300,000 elements fill four pieces, so that no more than four workers share them.
#[test]
fn memory_of_a_long_text(rt: HostRuntime) -> Result<(), Fail> {
    for (workers, least) in [(1, 1_572_864), (3, 3_145_728), (64, 4_718_592)] {
        let asked = asked_by_run(&rt, rt.alloc(), workers, LONG_WRITE)?;
        let more = asked.wrapping_sub(asked_by_run(&rt, rt.alloc(), workers, NO_WRITE)?);
        let beside = more.wrapping_sub(least);
        assert!(rt; beside < 1_000, "{workers} workers, {more} bytes");
    }
    Ok(())
}

/// How many blocks of memory a session on an input of bytes holds before the input is read, and after.
fn held_by_input<R: Threads + Sync>(rt: &R, alloc: Global) -> Result<(u64, u64), Refused> {
    let heap = Refusing::none(alloc);
    let config = Config::new(4_096, 1).unwrap();
    let mut session = Session::new(&heap, config, inputs_of(&heap, &["7 8 9"])?)?;
    let before = heap.held();
    call_line(rt, &heap, &mut session, "a = input 1")?;
    Ok((before, heap.held()))
}

/// An input's bytes are freed once they are read: the list of inputs and the bytes are held before; then the list, the numbers,
/// what shares them, and the node of the name.
#[test]
fn memory_of_an_input_that_is_read(rt: HostRuntime) -> Result<(), Fail> {
    let held = held_by_input(&rt, rt.alloc());
    assert!(rt; held == Ok((2, 4)), "{held:?}");
    Ok(())
}
