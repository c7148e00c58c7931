//! The one call that the program `mir_tables` makes: it takes the words of the command line, a source and two sinks,
//! and writes the tables of what the passes find out, or those of `divisions`, `tails`, `join`, `bounds`, `wanted` or
//! `demanded`.
//!
//! The text is read, and all passes or the motion of divisions are made, by `mir_top::top`: its reply has the trail. So
//! what a text means, which texts are refused, and with which status and line, is the same as under `mir optimise`.
//!
//! The theorem is on `tables`: what is written is the text of the tables that the words ask for, of the program that
//! was read, and every other status has its cause.
#![tactic(auto)]

mod call;
mod complaint;
mod further;
mod kinds;

pub use call::tables;
pub use kinds::TableKind;
