//! What the motion of divisions finds out, as text.
//!
//! In goes the trail of the motion of divisions of a program; out come its tables: for each unit the graph of each
//! stage, and between the split graph and the moved one a row by nodes for each thing that is found out of each
//! division: where each run is sure to come to it, and how far its evaluation can be delayed then. docs/TABLES.md
//! defines the text for a reader.
//!
//! The theorem that this crate carries is the contract of `text_of_divisions`: the text is that of the rows that the
//! contracts of the motion define, for each graph of a linked trail, with nothing left out.
#![tactic(auto)]

mod columns;
mod expressions;
mod rows;
mod trails;
mod units;

pub use trails::text_of_divisions;
