//! What becomes of the calls of a program, as text.
//!
//! In goes a program; out come the tables of `tails`, which say of each call whether it is in tail position and why not
//! (`text_of_tails`), and those of `join`, which say of each unit whether it is a leaf and why not, and of each call
//! what becomes of it (`text_of_joins`). Between the lines stand the graphs of each unit on its way. docs/TABLES.md
//! defines the text for a reader.
//!
//! The theorem that this crate carries is the contract of these two: each line says what the definitions of the two
//! passes say of its node or unit, for the graphs that they make, with nothing left out.
#![tactic(auto)]

mod joins;
mod tails;

pub use joins::text_of_joins;
pub use tails::text_of_tails;
