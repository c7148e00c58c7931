//! The raw program that a text's tokens spell.
//!
//! In go the tokens of a text; out comes a raw program, in which units, variables and labels still have names, or the
//! line of the first token at which no text can go on, or the answer that the text ends inside a unit or a global line.
//! `specs/Grammar.antt` is the grammar: a relation between lists of tokens and raw programs.
//!
//! The theorem that this crate carries is the contract of `parse`: it answers the raw program that the tokens spell
//! exactly where there is one, and each refusal exactly where its cause is there.
#![tactic(auto)]

mod faults;
mod laws;
mod parsing;
mod parts;
mod raw;
mod reading;
mod so_far;
mod units;

pub use faults::{ParseFault, TextFault};
pub use laws::{raw_is_unique, refusal_is_unique};
pub use parsing::parse;
pub use raw::{Raw, RawForm, RawGlobal, RawInst, RawLabel, RawOperand, RawRhs, RawTest, RawUnit};
pub use reading::read_text;

/// There is not enough memory: the allocator refused.
pub type Memory = std::alloc::AllocError;
