//! Arguments that are always the same constant. In goes a program; out comes the program in which each unit that gets a
//! constant for an argument from every call assigns it to the variable that receives the argument, so that later passes
//! can propagate it. A recursive call that only passes the argument on does not stand in the way.
//!
//! The theorem that this crate carries is the contract of `constant_arguments`: the answer is the exact program, it is
//! the same as the program that goes in, evaluates no more operators, and never has more frames.
#![tactic(auto)]

mod gathering;
mod kept;
mod knowing;
mod programs;
mod states;

pub use programs::constant_arguments;
