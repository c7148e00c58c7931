//! Value numbering. In goes a graph; out comes the graph in which each right side that would compute again what a
//! variable has already is that variable.
//!
//! The theorem that this crate carries is the contract of `number`: the answer is the exact graph, it does the same as
//! the graph that goes in, and it evaluates no more operators.
//!
//! `NodeTerms::before` answers what it finds out first: the terms that the variables have before a node; `AllTerms::of`
//! answers them for all nodes at once. Variables with one term have one value in each run of the graph (`terms_hold`).
//!
//! In `specs/Terms.antt` and `specs/Roots.antt` stands what the term of a variable before a node is: a tree of
//! operators, read off the nodes on the way from the last root. The code builds no tree: a term is a number in a hashed
//! table, whose entries name the numbers of its operands (`terms.rt`), so a term that has doubled its size a thousand
//! times costs a thousand entries. One walk over the graph keeps the number of each variable's term (`walk.rt`), and
//! for each number the variables that may have it, of which the first is at hand (`numbers.rt`, `candidates.rt`).
#![tactic(auto)]

mod all_terms;
mod before;
mod candidates;
mod finding;
mod keys;
mod numbering;
mod numbers;
mod terms;
mod walk;

pub use all_terms::{AllTerms, TermsAt};
pub use before::{NodeTerms, terms_hold};
pub use numbering::number;
pub use terms::TermKey;
