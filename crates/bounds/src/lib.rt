//! What interval analysis knows of a variable: a constant, or an interval whose ends are among few ends; the facts are
//! a finite lattice. In go operators, tests and the facts of their operands; out come the facts of results, and of
//! operands after a test.
//!
//! The theorem that this crate carries is the contract of `bounds_hold`: where the facts of the operands hold, so does
//! the fact of the result, and the surer the operands are, the surer is the result. Facts are also what `cond_flow` asks
//! of what is known of variables: they implement its `Knowledge`, by rules that are lawful (`bound_laws`).
#![tactic(auto)]

mod bits;
mod coding;
mod ends;
mod facts;
mod knowing;
mod laws;
mod narrowing;
mod reading;
mod rounding;
mod rules;
mod spans;
mod tests_of;
mod uses;

pub use ends::End;
pub use facts::Fact;
pub use laws::{bounds_hold, bounds_rise, edges_hold, narrowing_holds, uses_hold};
pub use rules::{bounds_of, bounds_of_un, may_hold, narrowed};
pub use spans::Span;
