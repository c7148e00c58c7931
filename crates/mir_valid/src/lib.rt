//! The check of a raw program, and the program that it stands for.
//!
//! In goes a raw program, in which units, variables and labels have names; out comes a program, in which variables and
//! units have numbers and jumps go to places, or the first refusal of a fixed order with the smallest line at which its
//! condition holds. `specs/Rules.antt` has the conditions, `specs/Refusals.antt` their order, and `specs/Stands.antt`
//! what program a raw one stands for.
//!
//! The theorem that this crate carries is the contract of `check`: it answers the program that a valid raw program
//! stands for, and each refusal exactly where its condition holds and no earlier one does.
#![tactic(auto)]

mod calls;
mod checking;
mod faults;
mod forms;
mod globals;
mod labels;
mod laws;
mod lines;
mod lookups;
mod numbering;
mod receives;
mod refusals;
mod rules;
mod tables;
mod variables;

pub use checking::check;
pub use faults::ValidFault;
pub use laws::{program_is_unique, refused_is_not_valid};

/// There is not enough memory: the allocator refused.
pub type Memory = std::alloc::AllocError;
