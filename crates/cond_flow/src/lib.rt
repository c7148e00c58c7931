//! Conditional flow: what is known of variables before each node, found out and used by rules that a crate above hands
//! in. In goes a graph; out comes the graph with what is known in the place of what is computed: operands and right
//! sides become what the rules say, decided tests the way that they take, trap instructions that are never raised
//! nothing, and nodes that are then not reached are dropped.
//!
//! The theorem that this crate carries is the contract of `rewritten`: by lawful rules the answer is the exact graph,
//! made from the least states of the nodes, it does the same as the graph that goes in, and it evaluates no more
//! operators. `LeastStates::of` answers what it finds out first, and `before` what is known before a node.
#![tactic(auto)]

mod code_joins;
mod facts;
mod flow;
mod handing;
mod knowledge;
mod least_states;
mod news;
mod outside;
mod reading;
mod rewriting;
mod solved;
mod solving;
mod states;
mod telling;
mod transfer;

pub use facts::{Coded, Facts};
pub use handing::handed;
pub use knowledge::Knowledge;
pub use least_states::{LeastStates, states_hold};
pub use outside::Outside;
pub use rewriting::{rewritten, rewritten_within};
pub use solved::{Solved, solved_within};
