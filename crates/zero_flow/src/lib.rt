//! Which variables are 0, or are not 0, before each node of a graph: what safe division asks. In go right sides and
//! tests; out come the facts of their values, and of the operands along the edges of a test.
//!
//! `ZeroFact` is what `cond_flow` asks of what is known of variables: it implements `Knowledge`, by rules that are
//! lawful (`zero_laws`). The theorem that this crate carries is the contract of `zeros_hold`: what the least states of
//! a graph say of its variables by these rules is true of each run.
#![tactic(auto)]

mod facts;
mod knowing;
mod laws;
mod pairs;
mod reading;
mod tests_of;

pub use facts::ZeroFact;
pub use laws::zeros_hold;
pub use reading::may_be_nought;
