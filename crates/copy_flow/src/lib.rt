//! Copies. In goes a graph; out comes the graph in which each variable that is a copy of another, on every path from
//! Start, gives way to the other where it is read, and in which no variable is assigned to itself.
//!
//! The theorem that this crate carries is the contract of `copies`: the answer is the exact graph, there is no other,
//! it does the same as the graph that goes in, and it evaluates no more operators.
//!
//! `held_assign` tells which variable each one is a copy of before each node: `PickCopies` is the choice of the
//! assignments that are copies. In `specs/Copies.antt` it is said when a variable is a copy of another, and in
//! `specs/Copied.antt` what becomes of the nodes.
#![tactic(auto)]

mod copying;
mod picking;
mod rereading;

pub use copying::{copied_splits, copies};
pub use picking::PickCopies;
