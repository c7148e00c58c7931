// What a run returns.
use mir_base::{Items, Memory, Trap};
use thiserror::Error;

/// How a run stands.
#[derive(Clone, Copy, Debug, PartialEq, Eq)]
pub enum Finish {
    /// It is neither at its end nor trapped.
    Running,
    /// It ended, with this result.
    Ended(i64),
    /// It trapped.
    Trapped(Trap),
}

/// What a run did.
#[derive(Drop)]
pub struct Report {
    /// The numbers that were printed, in order.
    pub lines: Items<i64>,
    /// How the run stands.
    pub finish: Finish,
    /// How many evaluations it counted: one for each assignment of a unary or binary right side, one that traps
    /// included.
    pub evals: u64,
}

/// Why there is no report.
#[derive(Debug, Drop, Error)]
pub enum RunFault {
    /// The number of inputs is not the number of receives of the first unit, which is `wanted`.
    #[error("wrong inputs: {wanted} wanted")]
    WrongInputs {
        /// How many inputs the program takes.
        wanted: usize,
    },
    /// Within the steps the number of frames passes `MOST_FRAMES`.
    #[error("deep: more than 10000 frames")]
    Deep,
    /// There is not enough memory.
    #[error("out of memory")]
    Memory(Memory),
}

impl From<Memory> for RunFault {
    ghost use Rattle.std.specs.Prelude.{◌≡◌};
    ghost use Rattle.mir_interp.specs.declared.report.RunFault.TheVariants.{Memory as OutOfMemory};

    ghost from_gives = { λ refusal fault. fault ≡ OutOfMemory refusal };

    fn from(refusal: Memory) -> RunFault {
        RunFault::Memory(refusal)
    }
}
