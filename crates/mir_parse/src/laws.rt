// What is true of every text and every list of tokens.
ghost use Rattle.std.specs.Prelude.{ℕ, List};
ghost use Rattle.mir_parse.specs.Spells.{RawIsUnique, TextRefusalIsUnique, RefusedSpellsNothing};

use mir_lex::tokens_are_unique;

/// Has no effect; carries the theorem that no text spells two raw programs.
pub fn raw_is_unique()
    ensures { (text : List ℕ) → RawIsUnique text }
{
    tokens_are_unique();
}

/// Has no effect; carries the theorem that no text is refused for two causes, and none that spells a raw program is
/// refused.
pub fn refusal_is_unique()
    ensures one { (text : List ℕ) → TextRefusalIsUnique text }
    ensures none { (text : List ℕ) → RefusedSpellsNothing text }
{
    tokens_are_unique();
    mir_lex::refusal_is_unique();
}
