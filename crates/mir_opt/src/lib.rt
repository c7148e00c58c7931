//! The order of the passes.
//!
//! In goes a program; out comes its trail: what each pass made of each unit, and the target program. `specs/Links.antt`
//! says when a trail is linked: each part is the exact result of its pass on the part before. `specs/Best.antt` says
//! when its code motion is the best, `specs/Divisions.antt` that its divisions stay, and `specs/Stages.antt` that each
//! of its graphs keeps the unit of the source.
//!
//! The theorem that this crate carries is the contract of `optimise`, and that of `motion` alike: the trail is linked
//! and is the only linked trail of its source, source and target are the same program, unit by unit and as a whole, the
//! target evaluates no more operators and never has more frames, in each unit no admissible placement evaluates an
//! expression less often on any full path than the one that was taken, and dividing instructions that are reached stay;
//! of `optimise` also that sinking leaves no more plain and movable assignments on any full path, each round no more
//! than any single step, and the last round, where the rounds come to rest, no more than any list of steps. `divisions`
//! has a theorem of the same form, for the expressions that divide and their own rule. What is said of the target holds
//! of the program of each stage, which `stage_program` makes.
#![tactic(auto)]

mod back;
mod chain;
mod commands;
mod front;
mod motions;
mod moving;
mod over_units;
mod stages;
mod steps;
mod trails;

pub use commands::{divisions, motion, optimise, stage_program};
pub use stages::{MoveStage, Stage, before_rounds, stages_of};
pub use trails::{MoveTrail, MoveUnit, Trail, UnitTrail};
