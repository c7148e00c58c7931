// Tokens as the grammar reads them.
use crate::Mark;
use mir_base::{Name, Word};

/// A terminal symbol of the grammar: what a token is, with the bytes of its name.
#[derive(Drop)]
pub enum Symbol {
    /// A name.
    Name(Name),
    /// A reserved word.
    Word(Word),
    /// A number.
    Number(i64),
    /// A mark.
    Mark(Mark),
    /// The end of a line.
    LineEnd,
}

/// A token as the grammar reads it.
#[derive(Drop)]
pub struct Terminal {
    /// Its symbol.
    pub symbol: Symbol,
    /// The number of its line, counted from 1.
    pub line: usize,
}
