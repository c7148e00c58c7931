//! What the passes find out, as text.
//!
//! In goes the trail of a program; out comes the text of its tables: for each unit the graph of each stage, and between
//! two stages what the pass finds out about the first of them, node by node. docs/TABLES.md defines the text for a
//! reader. What the passes find out is asked of their own calls; only which nodes are dead is read off the graph
//! without them, and the numbers of temporaries are counted.
//!
//! The theorem that this crate carries is the contract of `text_of_tables`: the text is that of the rows, states and
//! terms that the contracts of the passes define, for each graph of a linked trail, with nothing left out.
#![tactic(auto)]

mod copies;
mod motion;
mod motion_lines;
mod patterns;
mod rounds;
mod stages;
mod states;
mod terms;
mod trails;
mod units;

pub use trails::text_of_tables;
