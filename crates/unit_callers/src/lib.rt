//! Which units call a unit of a program, and marks of units that have to be looked at again. In go the graphs of the
//! units; out comes for each unit the list of those that call it (`callers_of`). Passes over whole programs that serve
//! units until nothing is raised mark the ones that may lack something then (`mark`, `mark_all`, `mark_if`).
//!
//! The theorem that this crate carries is the contract of `callers_of`: each unit is among the callers of each that it
//! calls.
#![tactic(auto)]

mod calling;
mod marks;

pub use calling::{Callers, callers_of};
pub use marks::{mark, mark_if};
