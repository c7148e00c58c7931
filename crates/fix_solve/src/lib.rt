//! A solver for flows over numbered nodes and edges. In go a value for each node and a transfer along each edge; out
//! come the least values that lie above the first one at each node and above the transfer along each edge.
//!
//! The theorem that this crate carries is the contract of `solve`: for every lawful lattice and flow it leaves the
//! least solution, does not allocate, and makes at most as many pushes as there are edges, for each rank of a value and
//! one more.
//!
//! A push may be told what of a value is news, that is, what may not have been pushed along this edge yet, so that it
//! need not look at all of it (`push_news`). A flow for which that does not pay has the news `AllNews`, and says nothing
//! of them.
#![tactic(auto)]

mod circles;
mod ends;
mod laws;
mod news_kinds;
mod order;
mod pushes;
mod room;
mod steps;
mod work;

pub use laws::{Flow, Lattice};
pub use news_kinds::{AllNews, News};
pub use room::{NoRoom, Room};
pub use steps::Steps;
pub use work::{Work, solve};

/// The allocator refused.
pub type Memory = std::alloc::AllocError;
