//! The tokens of a text.
//!
//! In goes a text, a list of bytes; out come its tokens, each with its place and its line, or the first place from the
//! left where no token stands. `specs/Spelling.antt` says what the tokens of a text are: a relation between whole texts
//! and lists of tokens, in which each token is as long as it can be.
//!
//! The theorem that this crate carries is the contract of `lex`: it answers the tokens of the text exactly where there
//! are some, and otherwise the kind and the line of the first place that is no token, which is there exactly then.
#![tactic(auto)]

mod bytes;
mod faults;
mod laws;
mod lexing;
mod numbers;
mod scan;
mod terminals;
mod tokens;
mod words;

pub use faults::LexFault;
pub use laws::{refusal_is_unique, tokens_are_unique};
pub use lexing::lex;
pub use numbers::{signed, unsigned};
pub use terminals::{Symbol, Terminal};
pub use tokens::{Token, Tokens};
pub use words::{Kind, Mark};

/// There is not enough memory: the allocator refused.
pub type Memory = std::alloc::AllocError;
