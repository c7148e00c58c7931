//! Lists of node numbers, linked by index. In go numbers and places in lists; out comes a fixed number of lists, in
//! which no number stands twice.
//!
//! The theorem that this crate carries is that each call does to the lists what its name says. After `Links::new` and
//! `Links::one_each`, which make the lists, no call allocates or fails, and each takes a fixed number of steps.
#![tactic(auto)]

mod links;
mod rings;

pub use links::Links;

/// The allocator refused.
pub type Memory = std::alloc::AllocError;
