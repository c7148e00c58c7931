// From a text to its tokens.
ghost use Rattle.std.specs.Prelude.{◌≡◌, ◌≤◌, ◌⊎◌, List, length, IfOk, IfErr, MatchResult};
ghost use Rattle.mir_base.specs.Limits.{most_bytes};
ghost use Rattle.mir_lex.specs.declared.tokens.Token.{Token as AToken};
ghost use Rattle.mir_lex.specs.declared.faults.LexFault.{LexFault as AFault};
ghost use Rattle.mir_lex.specs.Tokens.{AreTokens};
ghost use Rattle.mir_lex.specs.Spelling.{IsTokens, TokensAreUnique, IsRefusal, IsLexMemory};

use crate::scan::{Scanned, scan_text};
use crate::{LexFault, Memory, Token, Tokens};
use mir_base::Items;
use std::alloc::Global;

/// The tokens of a text, which has at most `mir_base::MOST_BYTES` bytes. `specs/Spelling.antt` says what they are.
///
/// It refuses a text in which, from the left, a place comes where no token stands: with `BadByte`, `BadNumber` or
/// `LongName`, by what stands there, and the line of that place. It also fails with `Memory`, where it runs out of
/// memory.
pub fn lex(alloc: Global, text: &[u8]) -> Result<Tokens, LexFault>
    requires { length text.now ≤ most_bytes }

    // The tokens are those of the text, and a text that has tokens is not refused, unless memory runs out.
    ensures found { IfOk result (λ tokens.
        (tokens.text ≡ text.now) × IsTokens text.now tokens.items) }
    ensures only { (items : List AToken) → IsTokens text.now items
        → MatchResult result (λ tokens. tokens.items ≡ items) IsLexMemory }

    // No text has two lists of tokens.
    ensures unique { TokensAreUnique text.now }

    // A refusal is that of the first place where no token stands, and a text with such a place is refused.
    ensures refused { IfErr result (λ fault. IsLexMemory fault ⊎ IsRefusal text.now fault) }
    ensures refused_only { (fault : AFault) → IsRefusal text.now fault
        → MatchResult result (λ tokens. ⊥) (λ other. (other ≡ fault) ⊎ IsLexMemory other) }
{
    match scan_text(alloc, text) {
        Ok(Scanned::Going(scan)) => match copy(alloc, text) {
            Ok(copy) => Ok(tokens(copy, scan.items)),
            Err(refused) => Err(LexFault::Memory(refused)),
        },
        Ok(Scanned::Stopped(fault)) => Err(fault),
        Err(refused) => Err(LexFault::Memory(refused)),
    }
}

// A copy of the text, which its tokens keep.
fn copy(alloc: Global, text: &[u8]) -> Result<Items<u8>, Memory>
    ensures { IfOk result (λ copy. copy ≡ text.now) }
{
    Ok(Items::of(text.to_vec(alloc)?))
}

// The tokens with their text.
fn tokens(text: Items<u8>, items: Items<Token>) -> Tokens
    requires { AreTokens text items }
    ensures text { result.text ≡ text }
    ensures items { result.items ≡ items }
{
    Tokens { text, items }
}
