// The reserved words, which no name is.
ghost use Rattle.std.specs.Prelude.{◌≡◌};
ghost use Rattle.mir_base.specs.Words.{first_word, is_text, reserved_word};

/// A reserved word, which no name is. The tables at the end of this file say how each is spelled.
#[derive(Clone, Copy, Debug, PartialEq, Eq)]
pub enum Word {
    Begin,
    End,
    Receive,
    Goto,
    If,
    Call,
    Return,
    Print,
    Mod,
    Min,
    Max,
    Shl,
    Shr,
    Shra,
    And,
    Or,
    Xor,
    Trap,
    Global,
    Sequence,
}

/// The reserved word that the bytes are, and `None` where they are none. Only the words of their length are looked at.
/// It does not allocate.
pub fn reserved_word(bytes: &[u8]) -> Option<Word>
    ensures { result ≡ reserved_word bytes.now }
{
    match bytes.len() {
        2 => word_among(&OF_2, bytes),
        3 => word_among(&OF_3, bytes),
        4 => word_among(&OF_4, bytes),
        5 => word_among(&OF_5, bytes),
        6 => word_among(&OF_6, bytes),
        7 => word_among(&OF_7, bytes),
        8 => word_among(&OF_8, bytes),
        _ => None,
    }
}

// The word of the first entry whose spelling the bytes are, and `None` where there is none.
fn word_among(table: &[(&[u8], Word)], bytes: &[u8]) -> Option<Word>
    ensures { result ≡ first_word (λ entry. entry.0.now) (λ entry. entry.1) bytes.now table.now }
{
    for (text, word) in table {
        if is_text(text, bytes) {
            return Some(*word);
        }
    }
    None
}

/// Whether the bytes are this text. Most differ in their first byte, and then no other byte is compared. It does not
/// allocate.
pub fn is_text(text: &[u8], bytes: &[u8]) -> bool
    ensures { result ≡ is_text text.now bytes.now }
{
    if text.len() > 0 && bytes.len() > 0 && text[0] != bytes[0] {
        return false;
    }
    text == bytes
}

// The reserved words by the number of their bytes, each behind its spelling.
const OF_2: [(&[u8], Word); 2] = [(b"if", Word::If), (b"or", Word::Or)];

const OF_3: [(&[u8], Word); 8] = [
    (b"end", Word::End),
    (b"mod", Word::Mod),
    (b"min", Word::Min),
    (b"max", Word::Max),
    (b"shl", Word::Shl),
    (b"shr", Word::Shr),
    (b"and", Word::And),
    (b"xor", Word::Xor),
];

const OF_4: [(&[u8], Word); 4] = [
    (b"goto", Word::Goto),
    (b"call", Word::Call),
    (b"shra", Word::Shra),
    (b"trap", Word::Trap),
];

const OF_5: [(&[u8], Word); 2] = [(b"begin", Word::Begin), (b"print", Word::Print)];

const OF_6: [(&[u8], Word); 2] = [(b"return", Word::Return), (b"global", Word::Global)];

const OF_7: [(&[u8], Word); 1] = [(b"receive", Word::Receive)];

const OF_8: [(&[u8], Word); 1] = [(b"sequence", Word::Sequence)];
