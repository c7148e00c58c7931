//! Tables of distinct keys. In go keys, one after the other; out comes the number of each, counted from 0 in the order
//! in which they first came.
//!
//! Two keys that `==` calls equal are one value (`Key`), so contracts see a table as the list of its keys, and speak of
//! no equality but that of values. Finding a key takes a fixed number of steps on average.
//!
//! The theorem that this crate carries is the contract of `KeyTable`: a key that is put in gets the number of its first
//! coming, and the keys before it keep theirs.
#![tactic(auto)]

mod keys;
mod tables;

pub use keys::Key;
pub use tables::KeyTable;
