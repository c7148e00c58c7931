//! The canonical text of a program, and the law that it is read as that program.
//!
//! In goes a program; out comes its text: for each unit `NAME: begin`, a line for each instruction, and `end`, with the
//! labels `L1`, `L2` and so on where jumps go, in ascending order of place. The definition is `canonical_text` in
//! `specs/Text.antt` of `mir_base`, and `print` writes exactly this.
//!
//! The theorem that this crate carries is the contract of `text_is_read_back`: the canonical text of a program spells a
//! raw program that stands for it, and within the limits `lex`, `parse` and `check` give the program back and no other.
#![tactic(auto)]

mod instructions;
mod labels;
mod operands;
mod printing;
mod reading_back;
mod scope;
mod sides;
mod well_typed;

pub use operands::put_number;
pub use printing::print;
pub use reading_back::text_is_read_back;
pub use sides::{put_call_among, put_side, put_test_with};

/// There is not enough memory: the allocator refused.
pub type Memory = std::alloc::AllocError;
