//! What passes over whole programs share, where a pass may add or take calls. In go a unit, a graph or nodes, and out
//! come the graph of the unit with clean jumps (`lowered_clean`; of all units, `graphs_of`), the unit of a graph
//! (`laid_out`, and `into_laid_out` of one that is let go), nodes with assignments in the place of one (`stand`), and
//! marks of numbers (`marks_of`).
//!
//! The theorem that this crate carries stands in `specs/`, for the passes above: where a pass keeps the program of the
//! graphs of all units, on whole stacks, the program that it makes is the same, evaluates no more operators, and never
//! has more frames (`passes_keep` of `PassProgramLaws`).
#![tactic(auto)]

mod marks;
mod nodes;
mod standing;
mod steps;
mod units;

pub use marks::marks_of;
pub use nodes::{copied_nodes, start_succ};
pub use standing::{Put, plain_put, stand};
pub use steps::{PassSteps, swept_steps};
pub use units::{Front, graphs_of, into_laid_out, laid_out, lowered_clean};
