// Why a text has no tokens.
use crate::Memory;
use thiserror::Error;

/// Why a text has no tokens. The number is the line of the first place from the left where no token stands.
#[derive(Debug, Drop, Error)]
pub enum LexFault {
    /// A byte that begins no token, blank, comment or line end.
    #[error("line {0}: bad byte")]
    BadByte(usize),
    /// A number that does not fit 64 bits with a sign, or is directly followed by a letter or `_`.
    #[error("line {0}: bad number")]
    BadNumber(usize),
    /// A name of more than `mir_base::MOST_NAME_BYTES` bytes.
    #[error("line {0}: long name")]
    LongName(usize),
    /// The call ran out of memory.
    #[error(transparent)]
    Memory(Memory),
}
