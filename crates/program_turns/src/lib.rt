//! Turns of passes until nothing changes. In go a program, and out comes the program after turns of the passes of a
//! turn until one changes nothing, sixteen at the most (`thorough_program`). In a turn self tail calls become loops,
//! leaves are joined into their callers, and constants that all calls give are known in their units. Each unit goes
//! through `optimise`, and then through the passes that `optimise` has no part of: `terms`, `demanded`, `known`,
//! `extensions` and `unread`. At last the units that no call leads to are dropped. So what a join brings together is
//! folded and moved, and a unit whose calls have gone may be a leaf of the next turn.
//!
//! The theorem that this crate carries is the contract of `thorough_program`: the program is the exact one and the only
//! one, is the same as the source, evaluates no more operators, and never has more frames. By its definition a further
//! turn changes nothing, unless sixteen were made.
#![tactic(auto)]

mod thorough;

pub use thorough::thorough_program;
