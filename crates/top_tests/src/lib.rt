//! Tests of `top` as its callers have it: whole calls of the program, with their outputs byte for byte, broken texts,
//! devices that fail, and memory that is refused.
//!
//! It has no code of its own. The tests stand here, and not in `mir_top`, because a crate with tests is proved twice.
#![tactic(auto)]

#[cfg(test)]
mod tests;
