//! Where the temporaries of code motion live.
//!
//! In go a split graph with its edges, a table of expressions, a down rule and the lazy placement of it; out come rows
//! that say on which edges the temporary of each expression is held, from an insertion to the uses that are replaced.
//!
//! The theorem that this crate carries is the contract of `ranges`: the rows are exactly this, and every placement that
//! is optimal by the rule holds the temporary of an expression wherever the lazy one does. So among those that evaluate
//! as seldom as can be, the lazy placement keeps its temporaries alive the shortest. `held_edges` has rows of the first
//! kind for any admissible placement, the busy one among them.
#![tactic(auto)]

mod counting;
mod holding;
mod wanted;

pub use counting::{RangeCounts, count_ranges};
pub use holding::{Held, held_edges, holds_least, ranges};
