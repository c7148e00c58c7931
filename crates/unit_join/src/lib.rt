//! Inlining: leaf units are joined into their callers. In goes a program, and out comes the program in which the nodes
//! of a leaf stand in the place of each call of it (`join_program`); `join` does so for the graph of one unit. A leaf
//! is a unit of at most 32 instructions that calls no unit. A unit that would get more instructions than a text may
//! have is left as it is. For those who show the pass: what decides whether a unit is a leaf (`leaf_test`), and the
//! graphs of a unit on its way through the pass (`join_steps`).
//!
//! The theorem that this crate carries is the contract of `join_program`: the program is the same, evaluates no more
//! operators, and never has more frames. Since calls vanish, a unit alone does not do the same as before: the proof
//! rests on the rule of `mir_sim` for whole stacks of frames.
#![tactic(auto)]

mod calls;
mod copy_table;
mod copying;
mod joining;
mod joins;
mod leaf_tests;
mod leaves;
mod programs;
mod steps;

pub use leaf_tests::{LeafTest, leaf_test};
pub use leaves::Leaves;
pub use programs::join_program;
pub use steps::{JoinSteps, join_steps};
