//! Extensions that change nothing. In goes a graph; out comes the graph in which `x <- t shra s`, or `x <- t shr s`, is
//! `x <- a` where t holds `a shl s` and the bounds of a show that no bit of it is lost. What the assignment no longer
//! reads may then be dead.
//!
//! The theorem that this crate carries is the contract of `extensions`: the answer is the exact graph, there is no
//! other, it does the same as the graph that goes in, and it evaluates no more operators.
//!
//! `held_assign` tells which shift to the left a variable holds before each node, `cond_flow` with the facts of
//! `bounds` between which numbers it lies. In `specs/Extensions.antt` it is said which right side extends a variable and
//! which numbers it keeps, and in `specs/Extended.antt` what becomes of the nodes.
#![tactic(auto)]

mod extending;
mod rewriting;
mod shifts;

pub use extending::extensions;
