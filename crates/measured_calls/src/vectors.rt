//! The vectors on which the calls are measured.

use crate::numbers::{next, random, random_below};
use cvl_base::Refused;
use cvl_base::limits::MOST_ELEMENTS;
use segdes::SegDes;
use std::alloc::{AllocError, Global};

/// How the vectors are made.
#[derive(Drop)]
pub struct Shape<'a> {
    /// What a line says of it after the numbers of elements and of segments.
    pub words: &'a str,
    /// How many elements there are at most.
    pub most: usize,
    /// How many of them a segment has; the last one may have fewer.
    pub segment: usize,
    /// Whether an empty segment stands before each of these.
    pub with_empty: bool,
    /// About how many of a hundred flags are true.
    pub percent: i32,
    /// Whether the index has its places at random, and not in order.
    pub at_random: bool,
}

impl<'a> Shape<'a> {
    /// So many elements in one segment, half of the flags true, the index in order.
    pub fn whole(length: usize) -> Shape<'a> {
        Shape {
            words: "",
            most: length,
            segment: length,
            with_empty: false,
            percent: 50,
            at_random: false,
        }
    }
}

/// Random integers.
#[derive(Drop)]
pub struct Numbers {
    /// Any.
    pub any: Vec<i32>,
    /// Odd ones, so that each divides.
    pub odd: Vec<i32>,
    /// Those from 0 to 31.
    pub shifts: Vec<i32>,
}

/// Flags.
#[derive(Drop)]
pub struct Flags {
    /// Random ones, with as many true as the shape says.
    pub some: Vec<bool>,
    /// Other random ones.
    pub others: Vec<bool>,
    /// True if the index is below half of a full segment, so that the places that it names there are packed.
    pub chosen: Vec<bool>,
}

/// Vectors of one length, what cuts them into segments, and a number for each segment.
#[derive(Drop)]
pub struct Vectors {
    pub numbers: Numbers,
    pub flags: Flags,
    /// Each place of a segment once, segment by segment, counted from the segment's start.
    pub index: Vec<i32>,
    /// A random integer for each segment.
    pub firsts: Vec<i32>,
    /// The segments.
    pub segments: SegDes<Global>,
}

/// The lengths of the segments of a shape, at most 4,194,304.
fn lengths_of(alloc: Global, shape: &Shape) -> Result<Vec<i32>, AllocError> {
    let (segment, with_empty) = (shape.segment, shape.with_empty);
    let most_cut = if with_empty {
        MOST_ELEMENTS / 2
    } else {
        MOST_ELEMENTS
    };
    let mut lengths = Vec::new(alloc);
    let mut left = shape.most;
    for _ in 0..most_cut {
        let taken = segment.min(left);
        if taken == 0 {
            break;
        }
        if with_empty {
            lengths.push(0)?;
        }
        lengths.push(i32::try_from(taken).unwrap_or(0))?;
        left -= taken;
    }
    Ok(lengths)
}

/// The places 0 to n - 1, in order or at random.
fn places(alloc: Global, at_random: bool, n: usize) -> Result<Vec<i32>, AllocError> {
    let mut places = vec![in alloc; 0; n]?;
    let mut state: i32 = 1;
    for k in 0..n {
        state = next(state);
        let other = if at_random {
            (state.cast_unsigned() >> 4) as usize % (k + 1)
        } else {
            k
        };
        places[k] = places[other];
        places[other] = i32::try_from(k).unwrap_or(0);
    }
    Ok(places)
}

/// For each segment its places.
fn index_of(alloc: Global, at_random: bool, lengths: &[i32]) -> Result<Vec<i32>, AllocError> {
    let mut index = Vec::new(alloc);
    for length in lengths {
        let part = places(alloc, at_random, length.cast_unsigned() as usize)?;
        index.extend_from_slice(&part)?;
    }
    Ok(index)
}

/// Which numbers are below a limit.
fn below(alloc: Global, numbers: &[i32], limit: i32) -> Result<Vec<bool>, AllocError> {
    let mut flags = vec![in alloc; false; numbers.len()]?;
    for k in 0..numbers.len() {
        flags[k] = numbers[k] < limit;
    }
    Ok(flags)
}

/// So many random flags, about so many of a hundred true.
fn random_flags(
    alloc: Global,
    seed: i32,
    length: usize,
    percent: i32,
) -> Result<Vec<bool>, AllocError> {
    let numbers = random_below(alloc, seed, length, 100)?;
    below(alloc, &numbers, percent)
}

/// So many random integers from 0 to 31.
fn shifts_of(alloc: Global, length: usize) -> Result<Vec<i32>, AllocError> {
    let mut numbers = random(alloc, 3, length, 0)?;
    for number in &mut numbers {
        *number &= 31;
    }
    Ok(numbers)
}

/// So many integers of each kind.
fn numbers_of(alloc: Global, length: usize) -> Result<Numbers, AllocError> {
    Ok(Numbers {
        any: random(alloc, 1, length, 0)?,
        odd: random(alloc, 2, length, 1)?,
        shifts: shifts_of(alloc, length)?,
    })
}

/// The flags of a shape, as many as the index has places.
fn flags_of(alloc: Global, shape: &Shape, index: &[i32]) -> Result<Flags, AllocError> {
    let half = i32::try_from(shape.segment / 2).unwrap_or(0);
    Ok(Flags {
        some: random_flags(alloc, 1, index.len(), shape.percent)?,
        others: random_flags(alloc, 2, index.len(), 33)?,
        chosen: below(alloc, index, half)?,
    })
}

/// The vectors of a shape.
pub fn vectors_of(alloc: Global, shape: &Shape) -> Result<Vectors, Refused> {
    let lengths = lengths_of(alloc, shape)?;
    if lengths.len() > MOST_ELEMENTS {
        return Err(Refused::NoResources);
    }
    let segments = SegDes::from_lengths(alloc, &lengths)?;
    let index = index_of(alloc, shape.at_random, &lengths)?;
    Ok(Vectors {
        numbers: numbers_of(alloc, index.len())?,
        flags: flags_of(alloc, shape, &index)?,
        firsts: random(alloc, 3, segments.count(), 0)?,
        index,
        segments,
    })
}
