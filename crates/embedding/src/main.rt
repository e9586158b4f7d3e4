//! The examples of `docs/dev/embedding.md`: calls of the library from code of one's own.
#![tactic(auto)]

mod gates;
mod kernels;
mod memory;
mod own_threads;
mod parts;
mod sessions;

use cvl_base::Config;
use std::io;
use std::str::from_utf8;

fn main(rt: HostRuntime) -> io::Result<()> {
    let alloc = rt.alloc();
    let config = Config::new(1, 2).unwrap();
    println!(rt; "sums: {:?}", kernels::sums(&rt, alloc, config))?;
    println!(rt;
        "sums of segments: {:?}",
        kernels::sums_of_segments(&rt, alloc, config)
    )?;
    if let Ok(text) = sessions::text_of_scan(&rt, alloc, config, [3, 1, 7, 0, 4]) {
        println!(rt; "text: {:?}", from_utf8(&text))?;
    }
    println!(rt;
        "scan and tiles: {:?}",
        gates::scan_and_tiles(&rt, alloc, config)
    )?;
    if let Ok(numbers) = [-1, 0, 1].repeat(alloc, 1_000) {
        let first = own_threads::first_of_each_sign(&rt, alloc, &numbers);
        println!(rt; "first of each sign: {first:?}")?;
    }
    println!(rt; "refused: {}", memory::is_refused(&rt, alloc, config))?;
    println!(rt;
        "scan in parts: {:?}",
        parts::scan_in_parts(alloc, &[3, 1, 7], &[0, 4])
    )?;
    Ok(())
}
