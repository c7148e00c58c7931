//! Conditional constants and identities. In goes a graph; out comes the graph with what is known in the place of what
//! is computed: variables with constant values are replaced by the constants, right sides by their values or by an
//! operand that has their value, decided tests by the way that they take, trap instructions that are never raised by
//! nothing, and nodes that are then not reached are dropped.
//!
//! The theorem that this crate carries is the contract of `fold`: the answer is the exact graph, made from the least
//! states of the nodes, it does the same as the graph that goes in, and it evaluates no more operators.
//!
//! `LeastStates::of` answers what it finds out first: the least states, and so what is known before each node
//! (`before`, and `before_each` for all of them). What they say is true of each run of the graph (`states_hold`).
#![tactic(auto)]

mod folding;
mod identities;
mod knowing;
mod known;
mod least_states;

pub use folding::fold;
pub use identities::identities_hold;
pub use known::Known;
pub use least_states::{LeastStates, states_hold};
