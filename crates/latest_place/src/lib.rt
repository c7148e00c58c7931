//! How far evaluations can be delayed, and the lazy placement.
//!
//! In go a split graph with its edges, a table of expressions and a down rule; out come the rows of the nodes at which
//! each expression is delayed, latest and isolated, and the placement that evaluates each expression as late as its
//! earliest evaluations can be delayed, and only where a use needs it.
//!
//! The theorem that this crate carries is that each row is exactly its statement on paths, and the contract of `lazy`:
//! for every down rule with its laws the placement is admissible, and on no full path does it evaluate an expression
//! more often than any other admissible placement does.
#![tactic(auto)]

mod delays;
mod equations;
mod once;
mod parts;
mod placement;

pub use delays::Late;
pub use placement::{late, lazy};
