// What is true of every text.
ghost use Rattle.std.specs.Prelude.{ℕ, List};
ghost use Rattle.mir_lex.specs.Spelling.{TokensAreUnique, RefusalIsUnique, HasNoTokensIfRefused};

/// No text has two lists of tokens. Has no effect; carries the theorem for callers.
pub fn tokens_are_unique()
    ensures { (text : List ℕ) → TokensAreUnique text }
{}

/// No text is refused for two causes, and none that has tokens is refused. Has no effect; carries the theorem for
/// callers.
pub fn refusal_is_unique()
    ensures one { (text : List ℕ) → RefusalIsUnique text }
    ensures none { (text : List ℕ) → HasNoTokensIfRefused text }
{}
