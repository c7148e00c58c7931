//! Rows with a bit for each key of a table. In go the nodes of a graph and what their keys are; out come the table of
//! the keys that nodes have (`node_keys`), which key of a table each node has (`key_rows`), and what is said of the
//! variable that each node assigns (`assigned_rows`, from rows that `mark_var`, `mark_operand` and `push_true` fill
//! in).
//!
//! The theorem that this crate carries is that each bit of these rows is exactly what is said of its key at its node.
#![tactic(auto)]

mod assigned;
mod gathering;
mod keyed;

pub use assigned::{assigned_rows, mark_operand, mark_var, push_true};
pub use gathering::node_keys;
pub use keyed::{KeyOf, key_rows};
