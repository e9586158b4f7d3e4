//! The sparse product, by its recipe and in one walk.

use crate::numbers::{next, random, random_below};
use crate::timing::{Bench, ROUNDS, last, print_time};
use cvl_base::limits::MOST_ELEMENTS;
use recipes::sparse_matvec;
use sparse_products::sparse_product;
use std::alloc::{AllocError, Global};
use std::io;
use std::rt::Clock;
use std::thread::Threads;
use std::time::{Duration, Instant};

/// How many pairs of rows the matrix has. A pair has 32 entries.
const PAIRS: usize = 32_768;

/// How many columns the matrix has, and how many elements the vector.
const COLUMNS: usize = 65_536;

/// The lengths of the rows, from 0 to 32 at random. The two of a pair have 32 entries in all.
fn row_lengths(alloc: Global) -> Result<Vec<i32>, AllocError> {
    let mut lens = Vec::new(alloc);
    let mut state: i32 = 1;
    for _ in 0..PAIRS {
        state = next(state);
        let len = ((state >> 8) & 65_535) % 33;
        lens.push(len)?;
        lens.push(32 - len)?;
    }
    Ok(lens)
}

/// A matrix with random columns and values, and a random vector.
#[derive(Drop)]
struct Product {
    lens: Vec<i32>,
    cols: Vec<i32>,
    vals: Vec<i32>,
    x: Vec<i32>,
}

impl Product {
    fn random(alloc: Global) -> Result<Product, AllocError> {
        Ok(Product {
            lens: row_lengths(alloc)?,
            cols: random_below(alloc, 2, 32 * PAIRS, 65_536)?,
            vals: random(alloc, 3, 32 * PAIRS, 0)?,
            x: random(alloc, 4, COLUMNS, 0)?,
        })
    }
}

/// The time of the recipe, with its vectors made before, and the last number of the product. It refuses vectors that are too
/// long.
fn timed_recipe<R: Clock + Threads + Sync>(
    bench: &Bench<'_, R>,
) -> io::Result<(Duration, Option<i32>)> {
    let (rt, alloc) = (bench.rt, bench.alloc);
    let Product {
        lens,
        cols,
        vals,
        x,
    } = Product::random(alloc)?;
    if lens.len() > MOST_ELEMENTS
        || cols.len() > MOST_ELEMENTS
        || vals.len() > MOST_ELEMENTS
        || x.len() > MOST_ELEMENTS
    {
        return Ok((Duration::MAX, None));
    }
    let start = Instant::now(rt)?;
    let y = sparse_matvec(rt, alloc, bench.config, lens, cols, vals, x);
    Ok((start.elapsed(rt)?, last(y)))
}

/// The same for the walk over the rows.
fn timed_walk<R: Clock + Threads + Sync>(
    bench: &Bench<'_, R>,
) -> io::Result<(Duration, Option<i32>)> {
    let (rt, alloc) = (bench.rt, bench.alloc);
    let p = Product::random(alloc)?;
    if p.lens.len() > MOST_ELEMENTS || p.cols.len() > MOST_ELEMENTS {
        return Ok((Duration::MAX, None));
    }
    let start = Instant::now(rt)?;
    let y = sparse_product(rt, alloc, bench.config, &p.lens, &p.cols, &p.vals, &p.x);
    Ok((start.elapsed(rt)?, last(y)))
}

/// Measures the recipe, or the walk over the rows.
fn measure_product<R: Print + Clock + Threads + Sync>(
    bench: &Bench<'_, R>,
    name: &'static str,
    in_one_walk: bool,
) -> io::Result<()> {
    let (entries, rows) = (32 * PAIRS, 2 * PAIRS);
    let what = format!(in bench.alloc; "{entries} entries, {rows} rows, {COLUMNS} columns")?;
    let mut best = Duration::MAX;
    let mut answer = None;
    for _ in 0..ROUNDS {
        let (time, number) = if in_one_walk {
            timed_walk(bench)?
        } else {
            timed_recipe(bench)?
        };
        best = best.min(time);
        answer = number;
        if answer.is_none() {
            break;
        }
    }
    print_time(bench.rt, &what, best, (name, answer))
}

/// Measures the recipe, which takes its vectors, and the walk over the rows.
pub fn measure<R: Print + Clock + Threads + Sync>(bench: &Bench<'_, R>) -> io::Result<()> {
    measure_product(bench, "sparse product", false)?;
    measure_product(bench, "sparse product in one walk", true)
}
