//! Products of sparse matrices with vectors. The rows are given as lengths, or by offsets.

ghost use Rattle.c_calls.specs.Products.{checked_product_by_offsets_of, checked_product_of, product_by_offsets_of, product_of};
ghost use Rattle.c_calls.specs.Told.{RoomToldOr};

use c_calls::products::{checked_product, checked_product_by_offsets, product, product_by_offsets};
use c_calls::status::{CvlStatus, told};
use std::alloc::Global;

/// The product of a sparse matrix with the vector `x`. Sums and products wrap to 32 bits.
#[unsafe(no_mangle)]
pub extern "C" fn cvl_proved_sparse_product(
    alloc: Global,
    lengths: &[i32],
    columns: &[i32],
    values: &[i32],
    x: &[i32],
    out: &mut [i32],
) -> CvlStatus
    ensures { RoomToldOr (product_of lengths.now columns.now values.now x.now) result out.old out.new }
{
    told(product(alloc, lengths, columns, values, x), out)
}

/// The same product in whole numbers, which never wraps.
#[unsafe(no_mangle)]
pub extern "C" fn cvl_proved_checked_sparse_product(
    alloc: Global,
    lengths: &[i32],
    columns: &[i32],
    values: &[i32],
    x: &[i32],
    out: &mut [i32],
) -> CvlStatus
    ensures { RoomToldOr (checked_product_of lengths.now columns.now values.now x.now) result out.old out.new }
{
    told(checked_product(alloc, lengths, columns, values, x), out)
}

/// The product of a sparse matrix whose rows are given by offsets, one more than rows.
#[unsafe(no_mangle)]
pub extern "C" fn cvl_proved_sparse_product_by_offsets(
    alloc: Global,
    offsets: &[i32],
    columns: &[i32],
    values: &[i32],
    x: &[i32],
    out: &mut [i32],
) -> CvlStatus
    ensures { RoomToldOr (product_by_offsets_of offsets.now columns.now values.now x.now) result out.old out.new }
{
    told(product_by_offsets(alloc, offsets, columns, values, x), out)
}

/// The same product in whole numbers, which never wraps.
#[unsafe(no_mangle)]
pub extern "C" fn cvl_proved_checked_sparse_product_by_offsets(
    alloc: Global,
    offsets: &[i32],
    columns: &[i32],
    values: &[i32],
    x: &[i32],
    out: &mut [i32],
) -> CvlStatus
    ensures { RoomToldOr (checked_product_by_offsets_of offsets.now columns.now values.now x.now) result out.old out.new }
{
    told(
        checked_product_by_offsets(alloc, offsets, columns, values, x),
        out,
    )
}
