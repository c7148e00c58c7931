// What bytes begin or spell.
ghost use Rattle.std.specs.Prelude.{◌≡◌};
ghost use Rattle.mir_lex.specs.Spelling.{is_blank};
ghost use Rattle.mir_lex.specs.Scanner.{is_lone_letter, word_kind, single_mark};

use crate::{Kind, Mark};
use mir_base::{Name, is_letter, reserved_word};

/// What a letter with the letters, digits and `_` behind it is, and `None` where it is too long for a name.
#[tactic(auto, unfolding(crate::specs::Scanner::word_kind))]
pub fn word_kind(bytes: &[u8]) -> Option<Kind>
    ensures { result ≡ word_kind bytes.now }
{
    if is_lone_letter(bytes) || Name::is_spelled(bytes) {
        return Some(Kind::Name);
    }
    match reserved_word(bytes) {
        Some(word) => Some(Kind::Word(word)),
        None => None,
    }
}

// Whether the bytes are one letter. Such a name is common, and no reserved word has to be compared with it.
fn is_lone_letter(bytes: &[u8]) -> bool
    ensures { result ≡ is_lone_letter bytes.now }
{
    match bytes {
        [only] => is_letter(*only),
        _ => false,
    }
}

/// The mark that this byte alone is, whatever follows.
pub fn single_mark(byte: u8) -> Option<Mark>
    ensures { result ≡ single_mark byte }
{
    match byte {
        b':' => Some(Mark::Colon),
        b',' => Some(Mark::Comma),
        b';' => Some(Mark::Semicolon),
        b'(' => Some(Mark::LeftParen),
        b')' => Some(Mark::RightParen),
        b'+' => Some(Mark::Plus),
        b'*' => Some(Mark::Star),
        b'/' => Some(Mark::Slash),
        b'=' => Some(Mark::Equal),
        _ => None,
    }
}

/// Whether the byte is a space, a tab or a carriage return.
pub fn is_blank(byte: u8) -> bool
    ensures { result ≡ is_blank byte }
{
    byte == b' ' || byte == b'\t' || byte == b'\r'
}
