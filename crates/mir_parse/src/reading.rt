// From a text to a raw program.
ghost use Rattle.std.specs.Prelude.{◌≤◌, ◌⊎◌, length, IfOk, IfErr};
ghost use Rattle.mir_base.specs.Limits.{most_bytes};
ghost use Rattle.mir_parse.specs.Spells.{Spells, RawIsUnique, IsTextRefusal, IsTextMemory};
ghost use Rattle.mir_parse.specs.Answers.{AnswersSpelled, CauseIsRefused};

use crate::{Raw, TextFault, parse};
use mir_lex::lex;
use std::alloc::Global;

/// The raw program that a text of at most `mir_base::MOST_BYTES` bytes spells.
///
/// It refuses a text as `lex` does where it has no tokens, and its tokens as `parse` does where they spell no raw
/// program. It also fails when it runs out of memory.
pub fn read_text(alloc: Global, text: &[u8]) -> Result<Raw, TextFault>
    requires { length text.now ≤ most_bytes }

    // The raw program is spelled by the text, and one that is spelled is not refused, unless memory runs out.
    ensures found { IfOk result (λ raw. Spells text.now raw) }
    ensures only { AnswersSpelled result text.now }

    // No text spells two raw programs.
    ensures unique { RawIsUnique text.now }

    // A refusal is that of the text or of its tokens, and a text with such a cause is refused.
    ensures refused { IfErr result (λ fault. IsTextMemory fault ⊎ IsTextRefusal text.now fault) }
    ensures refused_only { CauseIsRefused result text.now }
{
    match lex(alloc, text) {
        Ok(tokens) => match parse(alloc, &tokens) {
            Ok(raw) => Ok(raw),
            Err(fault) => Err(TextFault::Parse(fault)),
        },
        Err(fault) => Err(TextFault::Lex(fault)),
    }
}
