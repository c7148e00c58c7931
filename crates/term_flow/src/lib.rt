//! Chains of operators with constants. In goes a graph; out comes the graph in which an assignment `x <- t - 1`, where
//! t holds `a + 3`, is `x <- a + 2`, so that t may be dead, and in which `b + a` is `a + b`.
//!
//! The theorem that this crate carries is the contract of `terms`: the answer is the exact graph, there is no other, it
//! does the same as the graph that goes in, and it evaluates no more operators.
//!
//! `held_assign` tells which right side a variable holds before each node. In `specs/Terms.antt` it is said what a
//! variable and a constant under an operator are and what two of them on one another make, in `specs/Orders.antt` in
//! which order operands stand, and in `specs/Termed.antt` what becomes of the nodes.
#![tactic(auto)]

mod chains;
mod comparing;
mod joining;
mod numbers;
mod ordering;
mod reading;
mod rewriting;

pub use chains::terms;
