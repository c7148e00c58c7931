//! Jump clean-up. In goes a graph; out comes the graph without tests that make no difference and without Skips on the
//! way: each Skip that is left is its own successor, and no Test has two equal successors.
//!
//! The theorem that this crate carries is the contract of `clean`: the answer is the exact graph, it does the same as
//! the graph that goes in, and it evaluates no more operators.
#![tactic(auto)]

mod chains;
mod classes;
mod cleaning;
mod reducing;

pub use chains::ends;
pub use cleaning::{clean, into_clean};
