//! Wanted bits over the units of a program. In goes a program; out comes the program in which no unit computes what no
//! other needs of it: how many bits are wanted of an argument is what the called unit wants where it is entered, of a
//! result what any of the callers wants behind its call, and of a global likewise.
//!
//! The theorem that this crate carries is the contract of `wanted_program`: the answer is the exact program, made by the
//! least numbers over all units, it is the same as the program that goes in, evaluates no more operators, and never has
//! more frames; its frames agree with those of that program in the bits that are wanted, and no removal over all units
//! that keeps what is wanted takes an assignment that stays.
#![tactic(auto)]

mod demands;
mod hastening;
mod preparing;
mod programs;
mod raising;
mod serving;
mod starting;

pub use demands::{Tables, around};
pub use programs::{program_demands, wanted_program};
