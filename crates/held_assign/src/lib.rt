//! Assignments that hold. In goes a graph and a choice of right sides (`Picks`); out come the distinct assignments
//! `v <- rhs` of the graph that are picked, and before which nodes each of them holds: on every path from Start to the
//! node there is such an assignment, after which neither v nor a variable of rhs is assigned.
//!
//! The theorem that this crate carries is the contract of `HeldAssigns::of`: before each node it tells of each variable
//! the picked right side that holds, and `None` exactly where there is none. Beside it stands the law of `held_values`:
//! in each run that comes to a node before which `v <- rhs` holds, v has the value of rhs there.
//!
//! A pass by such assignments is an `impl` of `HeldPass`; `made_by_held` answers its graph.
//!
//! In `specs/Holding.antt` it is said by paths when an assignment holds. There is a bit for each distinct assignment,
//! and `path_laws` tells at which nodes each of them holds.
#![tactic(auto)]

mod held;
mod in_place;
mod keys;
mod passes;
mod picking;
mod rows;
mod table;
mod values;

pub use held::HeldAssigns;
pub use in_place::made_in_place;
pub use passes::{HeldPass, made_by_held};
pub use picking::Picks;
pub use table::Assignment;
pub use values::held_values;
