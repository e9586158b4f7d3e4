//! Rows of a matrix.

ghost use Rattle.std.specs.Prelude.{◌≡◌, ◌≤◌, length, map, sum, unsigned_abs};
ghost use Rattle.cvl_base.specs.Descriptors.{AreLengthsWithin};
ghost use Rattle.cvl_base.specs.Limits.{most_places};

/// Some rows of a matrix: how many entries each has, and the column and the value of each entry, row after row. There may be more
/// entries behind those of the rows.
#[derive(Drop)]
pub(crate) struct Rows<'a> {
    pub(crate) lengths: &'a [i32],
    pub(crate) columns: &'a [i32],
    pub(crate) values: &'a [i32],
    ghost are_lengths: { AreLengthsWithin most_places lengths.now },
    ghost as_many: { length values.now ≡ length columns.now },
    ghost covered: { sum (map unsigned_abs lengths.now) ≤ length columns.now },
}
