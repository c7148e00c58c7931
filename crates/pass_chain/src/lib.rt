//! Passes over programs, each under a name, and chains of them. In go a pass, or a list of passes, and a program; out
//! comes what the pass makes of the program (`pass_program`), or what the passes make of it one after another, from the
//! first to the last (`chain_program`). The table of what each pass makes is `IsPassedBy` of `specs/Passes.antt`. A
//! pass on graphs takes each unit: it is lowered, cleaned, passed, cleaned and laid out.
//!
//! The theorem that this crate carries is the contract of `chain_program`: each program is the exact result of its pass
//! on the one before, and there is no other such chain; the last is the same as the source, evaluates no more
//! operators, and never has more frames.
#![tactic(auto)]

mod chains;
mod graph_passes;
mod over_units;
mod passes;
mod whole;

pub use chains::chain_program;
pub use passes::{Pass, pass_program};
