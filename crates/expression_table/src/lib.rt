//! The text of the expressions of a graph, as tables of code motion have it.
//!
//! In go a graph and the one that motion makes of it, the table of its expressions, the nodes before which each is
//! evaluated into its temporary, and what a crate above finds out of each; out come the lines of the expressions, one
//! behind the other: the number of each, its temporary, the expression, and the rows that the crate above writes.
//!
//! The theorem that this crate carries is the contract of `put_expressions`: the bytes that it appends are these lines,
//! and no others.
#![tactic(auto)]

mod expressions;

pub use expressions::{ExpressionRows, MovedExpressions, put_expressions};
