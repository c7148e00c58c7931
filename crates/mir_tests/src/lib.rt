//! Tests of what no clause says: texts and what becomes of them, calls with ample memory, and devices that fail.
//!
//! It has no code of its own. The tests stand here, and not in their crates, because a crate with tests is proved
//! twice. The examples of `top_tests` show whole calls, among them the runs of programs and most refusals of texts, and
//! what they show is not shown here again. Runs stand here where they are those of what a pass makes of a program.
#![tactic(auto)]

#[cfg(test)]
mod tests;
