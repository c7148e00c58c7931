// From tokens to a raw program.
ghost use Rattle.std.specs.Prelude.{◌≡◌, ◌<◌, length, OnOk, IfOk, IsErrOf};
ghost use Rattle.mir_parse.specs.Grammar.{IsText, IsUnfinished, TextIsUnique, terminals_of};
ghost use Rattle.mir_parse.specs.Reader.{reads, HasStepped};
ghost use Rattle.mir_parse.specs.Answers.{IsRefusedFor, AnswersRaw, OnlyUnexpectedIsRefused, UnexpectedIsRefused};

use crate::so_far::ReadSoFar;
use crate::units::{nothing, step};
use crate::{Memory, ParseFault, Raw};
use mir_lex::Tokens;
use std::alloc::Global;
use std::mem;

/// The raw program that the tokens spell by the grammar of `specs/Grammar.antt`.
///
/// It refuses with `Unexpected(line)` where some token cannot stand where it stands, since no text of the grammar
/// begins with the tokens up to it; `line` is that of the first such token. It refuses with `Unfinished` where there is
/// no such token and the tokens end inside a unit or a global line. It also fails when it runs out of memory.
pub fn parse(alloc: Global, tokens: &Tokens) -> Result<Raw, ParseFault>
    // The raw program is spelled by the tokens, and one that is spelled is not refused, unless memory runs out.
    ensures found { IfOk result (λ raw. IsText (terminals_of tokens.now) raw) }
    ensures only { AnswersRaw result (terminals_of tokens.now) }

    // No tokens spell two raw programs.
    ensures unique { TextIsUnique (terminals_of tokens.now) }

    // The line of a refusal is that of the first token that no text has there, and such a token is refused.
    ensures unexpected { OnlyUnexpectedIsRefused result (terminals_of tokens.now) }
    ensures unexpected_only { UnexpectedIsRefused result (terminals_of tokens.now) }

    // The tokens end inside a unit or a global line, and such tokens are refused.
    ensures unfinished { IsErrOf result ParseFault.Unfinished
        → IsUnfinished (terminals_of tokens.now) }
    ensures unfinished_only { IsUnfinished (terminals_of tokens.now)
        → IsRefusedFor result ParseFault.Unfinished }
{
    match read(alloc, tokens) {
        Ok(ReadSoFar::Outside(raw)) => Ok(raw),
        Ok(ReadSoFar::Stopped(line)) => Err(ParseFault::Unexpected(line)),
        Ok(ReadSoFar::Global(globals, _, name)) => {
            mem::drop(globals);
            mem::drop(name);
            Err(ParseFault::Unfinished)
        }
        Ok(ReadSoFar::In(reading, spot)) => {
            mem::drop(reading);
            mem::drop(spot);
            Err(ParseFault::Unfinished)
        }
        Err(refused) => Err(ParseFault::Memory(refused)),
    }
}

// The state of the reader after the last token, or after the first one that cannot stand where it stands. It fails only
// with `Memory`.
fn read(alloc: Global, tokens: &Tokens) -> Result<ReadSoFar, Memory>
    ensures { IfOk result (λ state. state ≡ reads (terminals_of tokens.now)) }
{
    let mut state = ReadSoFar::Outside(nothing(alloc));
    for number in 0..tokens.items.items().len() {
        if let ReadSoFar::Stopped(_) = state {
            return Ok(state);
        }
        if let Err(refused) = step_at(alloc, tokens, number, &mut state) {
            mem::drop(state);
            return Err(refused);
        }
    }
    Ok(state)
}

// Changes the state as the token of this number does. It fails only with `Memory`.
fn step_at(
    alloc: Global,
    tokens: &Tokens,
    number: usize,
    state: &mut ReadSoFar,
) -> Result<(), Memory>
    requires { number < length tokens.now.items }
    ensures { OnOk result (HasStepped (terminals_of tokens.now) number state.old state.new) }
{
    let terminal = tokens.terminal(alloc, number)?;
    step(alloc, state, terminal)
}
