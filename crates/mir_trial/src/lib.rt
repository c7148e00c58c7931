//! Programs on which the passes are tried.
//!
//! In go a number, the seed of all that is drawn, and how many units are wanted; out comes the one program that is
//! drawn from it. `specs/Trial.antt` says which one it is.
//!
//! The theorem that this crate carries is the contract of `trial_program`: it answers that program, which is valid, is
//! within the limits on units and instructions, and has no recursion: each unit but the last calls the next one alone.
#![tactic(auto)]

mod draws;
mod groups;
mod units;

pub use units::trial_program;
