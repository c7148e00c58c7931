//! What is true on all paths, or on some. In go a graph with its edges, and rows that say at which nodes each bit is
//! born and at which it is stopped; out come rows that say at which nodes a path statement holds, for all bits at once.
//!
//! The theorem that this crate carries is that each answer is exactly its statement on paths, for every graph, loops
//! without exit included.
//!
//! The rows that go in are made by `key_rows`.
//!
//! Where rows by blocks are at hand, two calls answer for blocks alone: at their first nodes (`forward_all_heads`), and
//! after their last (`backward_some_ends`). The edges between blocks, in the order in which a solver asks for them, are
//! made by `edges_between`.
#![tactic(auto)]

mod answers;
mod between;
mod bits;
mod calls;
mod filling;
mod graph_edges;
mod heads;
mod joins;
mod passing;
mod problems;
mod row_news;
mod seeds;
mod summaries;

pub use between::{BlockEdges, edges_between};
pub use calls::{backward_all_over, backward_some_over, forward_all, forward_all_over};
pub use heads::{backward_some_ends, forward_all_heads};
pub use joins::{last_nodes, some_predecessor, some_successor};
