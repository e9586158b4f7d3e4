//! The product of a sparse matrix with a vector in one walk over the rows: each gathers, multiplies and adds, without a vector in
//! between. The rows are given by lengths, or by offsets as in compressed sparse rows.
//!
//! A sum is wrapped to 32 bits, or is a whole number that must fit them. Besides the calls for Rattle, on several threads, there
//! are those on the calling thread, for code that has no runtime.
#![tactic(auto)]

mod answers;
mod matrix_rows;
pub mod offsets;
pub mod products;
mod row_counts;
mod row_groups;
mod row_sums;
mod row_walks;
pub mod rows_alone;
pub mod worked_products;

pub use offsets::row_lengths;
pub use products::{
    checked_sparse_product, checked_sparse_product_by_offsets, sparse_product,
    sparse_product_by_offsets,
};
pub use rows_alone::{checked_rows_product, rows_product};
