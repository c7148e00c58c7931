//! Programs without the units that no call leads to. In goes a program, and out comes the program of the units that
//! calls lead to from the first (`called_program`), in their order, with their new numbers in calls; the globals stay.
//!
//! The theorem that this crate carries is the contract of `called_program`: the program is the exact one and the only
//! one, is the same as the source, evaluates no more operators, and never has more frames.
#![tactic(auto)]

mod called;
mod programs;
mod renumbering;

pub use programs::called_program;
