//! Moving divisions.
//!
//! In goes a split graph; out come its right sides that divide, so that they may trap, their lazy placement by the rule
//! of what must be reached, and the graph that is rewritten by it. A division is evaluated before a node only where
//! each run from the node comes to this very division before anything can be observed of it: so where the division
//! traps early, the graph would have trapped too, and shown nothing more.
//!
//! The theorem that this crate carries is the contract of `move_dividing`: the moved graph does the same as the graph
//! and evaluates no more operators, and no placement that is admissible by the rule evaluates less on any full path.
#![tactic(auto)]

mod flow;
mod moving;
mod nodes;
mod rule;
mod slots;
mod solving;

pub use moving::{DivMove, move_dividing};
pub use rule::{MustReach, runs_come};
