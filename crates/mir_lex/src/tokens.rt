// The tokens of a text.
ghost use Rattle.std.specs.Prelude.{◌≡◌, IfOk};
ghost use Rattle.mir_base.specs.Names.{IsName};

use crate::{Kind, Memory, Symbol, Terminal};
use mir_base::{Items, Name};
use std::alloc::Global;
use std::marker::Model;

/// A token of a text.
#[derive(Clone, Copy, Debug, PartialEq, Eq)]
pub struct Token {
    /// What it is.
    pub kind: Kind,
    /// The place of its first byte in the text, counted from 0.
    pub start: usize,
    /// The number of its bytes.
    pub length: usize,
    /// The number of its line: 1 and the line feeds before it.
    pub line: usize,
}

/// A text with its tokens, in the order of the text. Each token lies in the text, and none before the end of the one
/// before it; its line is 1 and the number of line feeds before it; and the bytes of a name are spelled as a name.
/// Contracts see the text as the list of its bytes, and the list of the tokens.
#[derive(Drop)]
pub struct Tokens {
    /// The text.
    pub text: Items<u8>,
    /// The tokens.
    pub items: Items<Token>,
}

impl Model for Tokens {
    ghost use Rattle.mir_lex.specs.Tokens.{TokensShape, AreTokens};

    ghost Value = { TokensShape };

    ghost view = { λ tokens. record { text = tokens.text; items = tokens.items } };

    ghost invariant = { λ tokens. AreTokens tokens.text tokens.items };
}

impl Tokens {
    ghost use Rattle.std.specs.Prelude.{◌<◌, length, IfOk};
    ghost use Rattle.mir_lex.specs.Terminals.{IsTerminalAt};

    /// The token of this number, counted from 0 and below the number of tokens, as the grammar reads it. It fails only
    /// with `Memory`.
    pub fn terminal(&self, alloc: Global, number: usize) -> Result<Terminal, Memory>
        requires { number < length self.now.items }
        ensures { IfOk result (λ terminal.
            IsTerminalAt self.now.text self.now.items number terminal) }
    {
        let token = self.items.items()[number];
        let text = self.text.items();
        let symbol = match token.kind {
            Kind::Name => name(alloc, &text[token.start..token.start + token.length])?,
            Kind::Word(word) => Symbol::Word(word),
            Kind::Number(value) => Symbol::Number(value),
            Kind::Mark(mark) => Symbol::Mark(mark),
            Kind::LineEnd => Symbol::LineEnd,
        };
        Ok(Terminal {
            symbol,
            line: token.line,
        })
    }
}

// The symbol of a name of these bytes.
fn name(alloc: Global, bytes: &[u8]) -> Result<Symbol, Memory>
    requires { IsName bytes.now }
    ensures { IfOk result (λ symbol. symbol ≡ Symbol.Name bytes.now) }
{
    Ok(Symbol::Name(Name::of(bytes.to_vec(alloc)?)))
}
