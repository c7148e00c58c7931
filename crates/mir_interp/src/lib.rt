//! The interpreter. In go a program, the inputs of its first unit and a number of steps; out comes a report: what the
//! run printed, how it stands, and how many evaluations it counted.
//!
//! The theorem of this crate is the clause of `run`: the report is that of the run by the definition, after so many
//! steps or at its end, whichever is first.
#![tactic(auto)]

mod report;
mod runs;
mod so_far;
mod stack;

pub use report::{Finish, Report, RunFault};
pub use runs::run;
