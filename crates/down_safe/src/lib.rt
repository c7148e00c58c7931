//! Which nodes are safe for an expression, and the busy placement.
//!
//! In go a split graph with its edges, a table of expressions and a down rule, which says where an expression may be
//! evaluated since it will be used; out come the rows of the nodes at which each expression is available, down, and
//! earliest, and the placement that inserts at the earliest nodes.
//!
//! The theorem that this crate carries is that each row is exactly its statement on paths, and that the busy placement
//! is admissible for every rule with the laws of a down rule.
#![tactic(auto)]

mod bits;
mod equations;
mod placement;
mod rule;
mod safety;

pub use equations::{busy, earliest_over};
pub use placement::busy_admits;
pub use rule::{DownRule, EveryPath};
pub use safety::{Busy, EarliestSites, Sites};
