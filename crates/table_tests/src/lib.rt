//! Tests of `tables` as its callers have it: programs with lines of their tables, and whole calls over devices in
//! memory.
//!
//! It has no code of its own. The tests stand here, and not in `mir_table`, because a crate with tests is proved twice.
#![tactic(auto)]

#[cfg(test)]
mod tests;
