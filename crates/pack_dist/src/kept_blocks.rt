//! The elements whose flag is true, pushed without a branch on each flag.
//!
//! A processor can't predict flags, and loses more time on a wrong guess than the copy of some elements takes. So each element
//! is put after the kept ones before it; if it isn't kept, the next one overwrites it.

ghost use Rattle.std.specs.Prelude.{◌≡◌, ◌-◌, ◌≤◌, ◌++◌, length};
ghost use Rattle.cvl_base.specs.Packs.{count_of};
ghost use Rattle.fresh.specs.Places.{stretch};
ghost use Rattle.pack_dist.specs.Kept.{kept_of};

use fresh::Run;

/// How many elements a block has.
const BLOCK: usize = 256;

/// Pushes the elements whose flag is true.
pub(crate) fn push_kept<T: Copy>(mut run: Run<T>, values: &[T], flags: &[bool]) -> Run<T>
    requires as_long { length values.now ≡ length flags.now }
    requires room { count_of flags.now ≤ run.room }
    ensures { result ≡ stretch run.block run.first (run.items ++ kept_of values.now flags.now) (run.room - count_of flags.now) }
{
    // Elements may be put right into the run, as many as there are empty places. The last ones need a buffer, since the place
    // after the last kept one isn't the run's.
    let (mut values, mut flags) = (values, flags);
    while !flags.is_empty() && run.room() >= BLOCK {
        let some = flags.len().min(run.room());
        let (some_values, other_values) = values.split_at(some);
        let (some_flags, other_flags) = flags.split_at(some);
        run = push_each(run, some_values, some_flags);
        values = other_values;
        flags = other_flags;
    }
    push_by_blocks(run, values, flags)
}

/// The same, if there is a place for each element, kept or not.
fn push_each<T: Copy>(mut run: Run<T>, values: &[T], flags: &[bool]) -> Run<T>
    requires as_long { length values.now ≡ length flags.now }
    requires room { length flags.now ≤ run.room }
    ensures { result ≡ stretch run.block run.first (run.items ++ kept_of values.now flags.now) (run.room - count_of flags.now) }
{
    for k in 0..flags.len() {
        run.push_if(values[k], flags[k]);
    }
    run
}

/// The same, block by block: what a block keeps goes into a buffer first, and is then pushed.
fn push_by_blocks<T: Copy>(mut run: Run<T>, values: &[T], flags: &[bool]) -> Run<T>
    requires as_long { length values.now ≡ length flags.now }
    requires room { count_of flags.now ≤ run.room }
    ensures { result ≡ stretch run.block run.first (run.items ++ kept_of values.now flags.now) (run.room - count_of flags.now) }
{
    if flags.is_empty() {
        return run;
    }
    // One buffer for all blocks, since each new one would be filled first. So both loops over a block stand here: no
    // function can be passed a buffer of any type.
    let mut buffer = [values[0]; BLOCK];
    let (mut values, mut flags) = (values, flags);
    while !flags.is_empty() {
        let block = flags.len().min(BLOCK);
        let (some_values, other_values) = values.split_at(block);
        let (some_flags, other_flags) = flags.split_at(block);
        let mut count = 0;
        for k in 0..some_flags.len() {
            buffer[count] = some_values[k];
            count += usize::from(some_flags[k]);
        }
        for place in 0..count {
            run.push(buffer[place]);
        }
        values = other_values;
        flags = other_flags;
    }
    run
}
