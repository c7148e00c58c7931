// Why tokens or a text spell no raw program.
use crate::Memory;
use mir_lex::LexFault;
use thiserror::Error;

/// Why tokens spell no raw program.
#[derive(Debug, Drop, Error)]
pub enum ParseFault {
    /// The line, counted from 1, of the first token that cannot stand where it stands: no text of the grammar begins
    /// with the tokens up to it.
    #[error("line {0}: unexpected")]
    Unexpected(usize),
    /// Each token can stand where it stands, but the tokens end inside a unit or a global line.
    #[error("text ends inside a unit")]
    Unfinished,
    /// There is not enough memory.
    #[error(transparent)]
    Memory(Memory),
}

/// Why a text spells no raw program.
#[derive(Debug, Drop, Error)]
pub enum TextFault {
    /// Its bytes are no tokens, for this reason of `mir_lex`.
    #[error(transparent)]
    Lex(LexFault),
    /// Its tokens spell no raw program, for this reason.
    #[error(transparent)]
    Parse(ParseFault),
}
