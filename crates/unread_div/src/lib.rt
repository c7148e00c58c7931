//! Divisions that nothing reads. In goes a graph; out comes the graph in which each division whose variable is not live
//! behind it, and whose divisor cannot be 0, is a Skip, so that what leads to it alone may be dead.
//!
//! The theorem that this crate carries is the contract of `unread`: the answer is the exact graph, there is no other,
//! it does the same as the graph that goes in, and it evaluates no more operators.
//!
//! `dead_code` tells what is live, and `LeastStates` of `cond_flow` which variables are not 0: by the rules of
//! `zero_flow`, or by those of `bounds`. In `specs/Unread.antt` it is said which divisions go.
#![tactic(auto)]

mod copying;
mod dead;
mod safe;
mod unreading;

pub use unreading::unread;
