//! Sinking of assignments. In goes a split graph, with its edges and blocks; out comes the graph in which its plain and
//! movable assignments have sunk, each to the last places to which every path brings it, so that a path that does not
//! need it may be spared it. What the definition speaks of can be asked too: where each pattern that can still move is
//! delayed and inserted.
//!
//! The theorem that this crate carries is the contract of `sunk`: the graph is exactly the one in which the assignments
//! have sunk, does the same, and has on the corresponding path of each full path no more of any plain or movable
//! assignment.
#![tactic(auto)]

mod along;
mod between;
mod delaying;
mod ends;
mod heads;
mod inserting;
mod inside;
mod keys;
mod moving;
mod ordering;
mod over;
mod pattern_rows;
mod patterns;
mod places;
mod sinking;
mod skips;
mod writing;

pub use delaying::{DelayedPatterns, inserted_apart, inserted_at_skips};
pub use patterns::Pattern;
pub use sinking::sunk;
