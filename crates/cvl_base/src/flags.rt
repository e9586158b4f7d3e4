//! How many flags are true.

ghost use Rattle.std.specs.Prelude.{◌≡◌, ◌≤◌, length};
ghost use Rattle.cvl_base.specs.Limits.{most_places};
ghost use Rattle.cvl_base.specs.Packs.{count_of};

/// How many of at most 2,147,483,647 flags are true.
// A filter would have a branch on each flag, and a sum of 64 bits half as many lanes.
pub fn true_count(flags: &[bool]) -> usize
    requires few { length flags.now ≤ most_places }
    ensures value { result ≡ count_of flags.now }
    ensures in_length { result ≤ length flags.now }
{
    let mut count: u32 = 0;
    for flag in flags {
        count += u32::from(*flag);
    }
    count as usize
}
