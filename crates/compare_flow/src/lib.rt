//! Comparisons in tests. In goes a graph; out comes the graph in which a test of a variable that holds a comparison is
//! the comparison itself, so that what the test no longer reads may be dead.
//!
//! The theorem that this crate carries is the contract of `comparisons`: the answer is the exact graph, there is no
//! other, it does the same as the graph that goes in, and it evaluates no more operators.
//!
//! `held_assign` tells which comparison a variable holds before each node. In `specs/Truths.antt` it is said what a
//! test asks of a variable and which test asks for a comparison, and in `specs/Compared.antt` what becomes of the
//! nodes.
#![tactic(auto)]

mod comparing;
mod rewriting;
mod truths;

pub use comparing::comparisons;
