//! Whether two units, or two programs, are equal. In go two of them by reference; out comes a truth value, and nothing
//! is allocated.
//!
//! What is proved: the answer is `true` exactly where contracts see the two as one value.
#![tactic(auto)]

mod units;

pub use units::{same_program, same_unit};
