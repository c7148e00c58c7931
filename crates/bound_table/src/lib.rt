//! What is known of the values of variables before each node, as text.
//!
//! In goes a program; out comes the table of the pass `bounds` (`text_of_bounds`): of each unit the graph on which the
//! pass works, before each of its nodes the bounds of each variable, and the graph in which they are used.
//! docs/TABLES.md defines the text for a reader.
//!
//! The theorem that this crate carries is the contract of this function: the graphs are those of the pass, and the
//! bounds are the least ones, with nothing left out.
#![tactic(auto)]

mod bounded;
mod ends;
mod states;

pub use bounded::text_of_bounds;
