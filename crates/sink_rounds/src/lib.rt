//! Partial dead code elimination. In goes a split graph; out come the rounds that are made of it. In a round the
//! assignments sink, and then the dead ones are removed; rounds follow until nothing changes.
//!
//! The theorem that this crate carries is the contract of `rounds`: each round is the exact graph of the one before it,
//! does the same, and has on the corresponding path of each full path no more of any plain or movable assignment; and
//! so it is from the graph to the last round. Of all single steps of sinking and removal from the graph before it each
//! round is the best: no other leaves a plain or movable assignment less often on any full path.
#![tactic(auto)]

mod answers;
mod outlines;
mod repeating;

pub use answers::{Round, Rounds};
pub use repeating::{MOST_ROUNDS, last_of_rounds, round, rounds};
