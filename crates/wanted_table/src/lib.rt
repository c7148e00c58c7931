//! How many bits of variables are wanted before each node, as text.
//!
//! In goes a program; out comes the table of the pass `wanted` (`text_of_wanted`): of each unit the graph on which the
//! pass works, before each of its nodes how many of the lowest bits of each variable are wanted, and the graph in which no
//! others are computed; or the same over units, by what they ask of one another (`text_of_demanded`). docs/TABLES.md
//! defines the text for a reader.
//!
//! The theorem that this crate carries is the contract of these functions: the graphs are those of the pass, and the
//! numbers are the least ones, with nothing left out.
#![tactic(auto)]

mod demanded;
mod narrowed;
mod numbers;
mod steps;

pub use demanded::text_of_demanded;
pub use narrowed::text_of_wanted;
