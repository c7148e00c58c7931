//! Wanted bits (demanded bits). In goes a graph; out comes the graph in which no bits are computed that are not wanted:
//! assignments of which no bit is wanted are Skips, operators with a constant that changes no wanted bit give way to
//! their other operand, and so do shifts to the left and back again that keep the wanted bits. Faint assignments, which
//! are read by one another alone, go too.
//!
//! The theorem that this crate carries is the contract of `narrow`: the answer is the exact graph, made by the least
//! numbers of wanted bits, it does the same as the graph that goes in, and it evaluates no more operators.
//!
//! `held_assign` tells which variable is another one shifted to the left before each node: `PickShifts` is the choice of
//! the right sides that are such shifts. In `specs/Shifts.antt` it is said when a variable is one.
#![tactic(auto)]

mod around;
mod asks;
mod backs;
mod before;
mod behind;
mod flow;
mod kept;
mod lists;
mod narrowing;
mod news;
mod picking;
mod preparing;
mod raises;
mod risen;
mod solving;
mod touching;
mod walking;
mod wanting;

pub use around::{Around, Widths};
pub use asks::{ask_again, asks_around, asks_prepared, no_asks};
pub use before::{wanted_before, wanted_before_in};
pub use kept::{Kept, ask_kept};
pub use narrowing::{narrow, narrow_in};
pub use picking::Shift;
pub use preparing::Prepared;
