//! Splitting edges. In goes a graph; out comes the graph with a new Skip on each edge that enters a node with more than
//! one entering edge, so that new nodes can be put on every edge that needs one.
//!
//! The theorem that this crate carries is the contract of `split`: the answer is the exact graph, it is split, does the
//! same as the graph that goes in, and evaluates no more operators.
//!
//! In `specs/Split.antt` the split graph is defined. All of its nodes are reached, so none is dropped when the graph is
//! made, and the new Skips stand behind the old nodes, which keep their numbers. That it does the same is a simulation:
//! while the graph that goes in stands at a node, the split graph stands there too, or at a new Skip that leads there.
#![tactic(auto)]

mod entries;
mod splitting;

pub use splitting::{split, split_splits};
