//! Bounds over the units of a program. In go a program; out comes the program in which each unit knows between which
//! numbers lie the arguments that it is called with, the globals where it is entered and where its calls return, and
//! what they answer.
//!
//! The theorem that this crate carries is the contract of `bounded_program`: the answer is the exact program, made by
//! the least facts over all units, it is the same as the program that goes in, evaluates no more operators, and never
//! has more frames.
#![tactic(auto)]

mod entries;
mod giving;
mod known;
mod programs;
mod serving;
mod starting;

pub use programs::bounded_program;
