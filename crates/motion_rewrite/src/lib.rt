//! Rewriting a graph by a placement of evaluations.
//!
//! In go a graph, a table of expressions, and a placement, which says before which nodes each expression is evaluated
//! into its temporary and which of its uses read the temporary; out comes the rewritten graph. `specs/` defines what a
//! node does with an expression, where an expression is available and anticipatable, and which placements are
//! admissible and optimal.
//!
//! The theorem that this crate carries is the contract of `flatten`: for every admissible placement of movable
//! expressions, by whatever down rule and whoever made it, the result does the same as the graph, and on the
//! corresponding path of each full path each expression is evaluated as often as the placement counts.
#![tactic(auto)]

mod editing;
mod flattening;
mod placement;
mod rows;
mod table;
mod temporaries;

pub use flattening::{flatten, flatten_dividing};
pub use placement::Placement;
pub use rows::{kill_rows, use_rows, used_at};
pub use table::{ExprTable, dividing_exprs, exprs};
pub use temporaries::inserted_somewhere;
