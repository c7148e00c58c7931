// The kinds of tokens.

use mir_base::Word;

/// A mark of punctuation or an operator.
#[derive(Clone, Copy, Debug, PartialEq, Eq)]
pub enum Mark {
    /// `:`
    Colon,
    /// `,`
    Comma,
    /// `;`
    Semicolon,
    /// `(`
    LeftParen,
    /// `)`
    RightParen,
    /// `+`
    Plus,
    /// `-`
    Minus,
    /// `*`
    Star,
    /// `/`
    Slash,
    /// `=`
    Equal,
    /// `!=`
    NotEqual,
    /// `<`
    Less,
    /// `<=`
    LessEqual,
    /// `>`
    Greater,
    /// `>=`
    GreaterEqual,
    /// `!`
    Bang,
    /// `<-`, or the character U+2190 in UTF-8
    Arrow,
}

/// What a token is.
#[derive(Clone, Copy, Debug, PartialEq, Eq)]
pub enum Kind {
    /// A name, whose bytes are those of the token in the text.
    Name,
    /// A reserved word.
    Word(Word),
    /// A number.
    Number(i64),
    /// A mark.
    Mark(Mark),
    /// The end of a line.
    LineEnd,
}
