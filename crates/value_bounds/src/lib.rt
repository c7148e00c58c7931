//! Bounds of values. In goes a graph; out comes the graph in which the bounds of the variables are used: variables that
//! are known to be one number are replaced by it, right sides by their number or by an operand that has their value,
//! decided tests by the way that they take, trap instructions that are never raised by nothing, and nodes that are then
//! not reached are dropped. A test that is passed narrows the bounds of its operands there.
//!
//! The theorem that this crate carries is the contract of `use_bounds`: the answer is the exact graph, made by the
//! least bounds before the nodes, it does the same as the graph that goes in, and it evaluates no more operators.
#![tactic(auto)]

mod bounding;

pub use bounding::use_bounds;
