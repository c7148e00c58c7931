// Why a raw program is refused.
use crate::Memory;
use thiserror::Error;

/// Why a raw program is no program. The kinds are tried in this order, and each has the smallest line at which its
/// condition holds.
#[derive(Debug, Drop, Error)]
pub enum ValidFault {
    /// There is no unit.
    #[error("no unit")]
    NoUnit,
    /// There are more than 256 units.
    #[error("too many units")]
    TooManyUnits,
    /// The line of a unit that has the name of an earlier one.
    #[error("line {0}: unit named twice")]
    SameUnit(usize),
    /// The line of an instruction that is number 16,385 of its unit.
    #[error("line {0}: too many instructions")]
    TooManyInsts(usize),
    /// The line of a receive that follows another kind of instruction or a label of its unit.
    #[error("line {0}: late receive")]
    LateReceive(usize),
    /// The line of a receive that names a variable which an earlier receive of the unit names.
    #[error("line {0}: variable received twice")]
    SameReceive(usize),
    /// The line of a receive that is number 17 of its unit.
    #[error("line {0}: too many receives")]
    TooManyReceives(usize),
    /// The line of a label that has the name of an earlier one of its unit.
    #[error("line {0}: label named twice")]
    SameLabel(usize),
    /// The line of a `goto` or `if` that names no label of its unit.
    #[error("line {0}: no such label")]
    NoLabel(usize),
    /// The line of a call that names no unit.
    #[error("line {0}: no such unit")]
    NoSuchUnit(usize),
    /// The line of a call with another number of arguments than the called unit has receives.
    #[error("line {0}: wrong number of arguments")]
    WrongCount(usize),
    /// The line of a global line that names an earlier global.
    #[error("line {0}: global named twice")]
    SameGlobal(usize),
    /// The line of a global line that is number 65.
    #[error("line {0}: too many globals")]
    TooManyGlobals(usize),
    /// The line of a receive that names a global.
    #[error("line {0}: global received")]
    GlobalReceive(usize),
    /// The line of a trap instruction whose number is below 0 or above 255.
    #[error("line {0}: bad trap number")]
    BadTrap(usize),
    /// Memory ran out.
    #[error(transparent)]
    Memory(Memory),
}
