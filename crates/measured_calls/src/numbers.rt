//! Numbers that look random, and are the same in each run.

use std::alloc::{AllocError, Global};

/// The next number of a sequence, by the multiplier and the increment of Numerical Recipes.
pub fn next(state: i32) -> i32 {
    state.wrapping_mul(1_664_525).wrapping_add(1_013_904_223)
}

/// So many random numbers, each with these bits set.
pub fn random(alloc: Global, seed: i32, length: usize, bits: i32) -> Result<Vec<i32>, AllocError> {
    let mut numbers = vec![in alloc; 0; length]?;
    let mut state = seed;
    for place in 0..length {
        state = next(state);
        numbers[place] = state | bits;
    }
    Ok(numbers)
}

/// So many random numbers from 0 up to a limit, at most 65,536, without the limit.
pub fn random_below(
    alloc: Global,
    seed: i32,
    length: usize,
    limit: u32,
) -> Result<Vec<i32>, AllocError> {
    let mut numbers = random(alloc, seed, length, 0)?;
    for number in &mut numbers {
        let word = (number.cast_unsigned() >> 8) & 65_535;
        *number = (word % limit.max(1)).cast_signed();
    }
    Ok(numbers)
}
