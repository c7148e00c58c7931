// The laws that functions carry, called once.
use cond_const::identities_hold;
use mir_lex::{refusal_is_unique, tokens_are_unique};
use mir_parse::{raw_is_unique, refusal_is_unique as raw_refusal_is_unique};
use mir_valid::{program_is_unique, refused_is_not_valid};

/// Those of texts, tokens, raw programs and programs, and the identities.
#[test]
fn laws() {
    tokens_are_unique();
    refusal_is_unique();
    raw_is_unique();
    raw_refusal_is_unique();
    program_is_unique();
    refused_is_not_valid();
    identities_hold();
}
