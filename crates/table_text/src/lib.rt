//! The text of tables: what is written of a graph, of rows by nodes, and of the units of a program on their way through
//! a pass.
//!
//! In go a graph, or rows of truth values with the place of a bit; out come lines, which docs/TABLES.md defines for a
//! reader and `specs/` for contracts. What the passes find out is asked by the crates above: this one only writes, and
//! asks them by three traits: `Pieces`, for texts that are written one after the other, `PassTable`, for what a pass
//! finds out between the graphs of a unit, and `KnownText`, for what is known of a variable.
//!
//! The theorem that this crate carries is the contract of each of its functions: the bytes that it appends are the text
//! of what it is given, and no others.
#![tactic(auto)]

mod columns;
mod fields;
mod graphs;
mod known;
mod nodes;
mod operands;
mod rows;
mod steps;
mod turns;

pub use columns::Columns;
pub use fields::{put_count, put_field};
pub use graphs::{put_graph, put_stage, put_unit};
pub use known::{KnownText, put_known};
pub use operands::{put_assigned, put_name, put_right, put_unit_field};
pub use rows::{put_bits, put_edge_bits};
pub use steps::{PassTable, put_back, put_front, put_pass, text_of_pass, unit_count, units_of};
pub use turns::{Pieces, put_in_turn, text_in_turn};
