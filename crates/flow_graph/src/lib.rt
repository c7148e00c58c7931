//! Flow graphs of units.
//!
//! In goes a unit, and out comes its graph (`lower`); in goes a graph, and out comes its unit (`layout`). Between the
//! two, passes write lists of nodes and make graphs of them (`Graph::with_nodes`), and read the edges (`Edges`); an
//! editor stands above this crate (`graph_edit`). The definitions in `specs/` say what a graph is, what one step of it
//! does, what its edges and paths are, and which graph and which unit the calls answer.
//!
//! The theorem that this crate carries is that going into a graph and back changes nothing: what `lower`, `layout` and
//! `with_nodes` answer does the same as what they take, and evaluates no more operators.
#![tactic(auto)]

mod blocks;
mod edge_lists;
mod edges;
mod emit;
mod graphs;
mod laying;
mod lowering;
mod making;
mod nodes;
mod plan;
mod reach;
mod rename;
mod retain;
mod seen;
mod sharing;
mod split;
mod tables;
mod tidying;

pub use blocks::Blocks;
pub use edges::{Edge, Edges};
pub use graphs::Graph;
pub use laying::layout;
pub use lowering::lower;
pub use making::Parts;
pub use nodes::{Node, redirect, redirect_in_place};
pub use retain::ranks;
pub use sharing::Names;
pub use split::is_split;
pub use tidying::tidied;
