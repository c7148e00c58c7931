//! Self tail calls as loops. In goes the graph of a unit, and out comes the graph in which each call of the unit
//! itself, whose answer it then returns, goes back to the beginning (`tail`); in goes a program, and out comes the
//! program of these graphs (`tail_program`).
//!
//! The theorem that this crate carries is the contract of `tail_program`: the program is the same, evaluates no more
//! operators, and never has more frames. Since calls vanish, units do not do the same one by one: it rests on the rule
//! for stacks of `mir_sim`.
#![tactic(auto)]

mod calls;
mod looping;
mod positions;
mod programs;
mod steps;
mod tails;

pub use positions::{CallPosition, Position, call_positions};
pub use programs::tail_program;
pub use steps::tail_steps;
