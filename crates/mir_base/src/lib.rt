//! The language: its programs as data, what they mean, and their canonical text.
//!
//! In go names, numbers and lists of instructions; out come programs whose parts are known to fit together. The
//! definitions in `specs/` say what a program means (the values of operators; one step of a frame, which is a call that
//! has not returned; a run as a stack of frames), when two programs are the same, and what the text of a program is.
//! They also say when a unit, and what a pass made of it, do the same and when that evaluates no more operators
//! (`UnitSame`, `UnitCheaper`): by runs of one frame, where any answers to its calls are assumed. And they give the two
//! rules by which the crates above prove it: `Simulates` and `Lockstep`.
//!
//! What is proved here is that code and definitions agree (`eval` gives the value of each operator, and traps exactly
//! where a divisor is 0), and that the two rules hold: a second side that simulates the first, or goes in lockstep with
//! it, does the same and evaluates no more operators.
#![tactic(auto)]

mod evaluation;
mod instructions;
mod items;
mod limits;
mod names;
mod operators;
mod programs;
mod words;

pub use evaluation::{divides, eval, eval1, expr_of, relates};
pub use instructions::{Args, Expr, Inst, Operand, Rhs, Test};
pub use items::Items;
pub use limits::{
    MOST_BYTES, MOST_FRAMES, MOST_GLOBALS, MOST_INSTS, MOST_NAME_BYTES, MOST_RECEIVES, MOST_STEPS,
    MOST_UNITS,
};
pub use names::{Name, is_letter, is_name_byte};
pub use operators::{Op, RelOp, Trap, UnOp, op_of_relation, op_text, rel_op_text, un_op_text};
pub use programs::{Program, Unit};
pub use words::{Word, is_text, reserved_word};

/// There is not enough memory: the allocator refused.
pub type Memory = std::alloc::AllocError;
