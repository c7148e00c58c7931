//! Rows of truth values, kept in words of 64 bits. In go numbers of rows and bits, and rows; out come rows.
//!
//! The theorem that this crate carries is that each call is the operation on lists of truth values that its name says,
//! whatever the number of bits: the unused bits of a last word are no part of the list, and no call reads them. A row
//! operation takes one pass over the words; only the calls that make rows or put one more at the end allocate.
#![tactic(auto)]

mod joining;
mod marked;
mod packed;
mod row;
mod rows;
mod view;
mod words;

pub use row::Row;
pub use rows::Rows;
pub use view::RowView;

/// The allocator refused.
pub type Memory = std::alloc::AllocError;
