//! Liveness, and the removal of dead assignments. In goes a graph, with its edges and blocks; out come rows of what is
//! live before each node, and the graph in which each plain or movable assignment whose variable is not live after it
//! is a Skip.
//!
//! The theorem that this crate carries is the contract of `pruned`: the graph is exactly the one without the dead
//! assignments, does the same, and has on each full path no more of any plain or movable assignment.
#![tactic(auto)]

mod dead;
mod liveness;
mod lives;
mod pruning;

pub use lives::live_rows;
pub use pruning::pruned;
