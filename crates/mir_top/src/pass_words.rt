// The passes of a chain, by their words.
ghost use Rattle.std.specs.Prelude.{◌≡◌, map, IfOk, Some};
ghost use Rattle.std.specs.List.{list_all};
ghost use Rattle.mir_base.specs.Words.{is_text};
ghost use Rattle.mir_top.specs.Commands.{command_of, word_bytes};
ghost use Rattle.mir_top.specs.PassWords.{are_passes, is_pass, most_passes, pass_of, pass_value, passes_in};

use crate::Command;
use mir_base::{Memory, is_text};
use pass_chain::Pass;
use std::alloc::Global;

/// The most passes of a call.
const MOST_PASSES: usize = 64;

/// Whether the words are those of passes, and not too many. It does not allocate.
pub(crate) fn are_passes(words: &[String]) -> bool
    ensures { result ≡ are_passes (word_bytes words.now) }
{
    words.len() <= MOST_PASSES && each_is_pass(words)
}

/// The passes that the words of `passes` give. It fails only with `Memory`.
pub(crate) fn passes(alloc: Global, words: &[String]) -> Result<Vec<Pass>, Memory>
    requires { command_of (word_bytes words.now) ≡ Some Command.Passes }
    ensures { IfOk result (λ passes. passes.items ≡ passes_in (word_bytes words.now)) }
{
    match words {
        [] => Ok(Vec::new(alloc)),
        [_, passes @ ..] => passes_of(alloc, passes),
    }
}

/// The passes that the words name. They were judged before; `clean` for any other word keeps the function total.
fn passes_of(alloc: Global, words: &[String]) -> Result<Vec<Pass>, Memory>
    ensures { IfOk result (λ passes. passes.items ≡ map pass_value (word_bytes words.now)) }
{
    let mut passes = Vec::new(alloc);
    for word in words {
        passes.push(pass_of(word.as_bytes()).unwrap_or(Pass::Clean))?;
    }
    Ok(passes)
}

/// Whether each of the words is that of a pass.
fn each_is_pass(words: &[String]) -> bool
    ensures { result ≡ list_all is_pass (word_bytes words.now) }
{
    for word in words {
        if pass_of(word.as_bytes()).is_none() {
            return false;
        }
    }
    true
}

/// The pass of a word.
fn pass_of(word: &[u8]) -> Option<Pass>
    ensures { result ≡ pass_of word.now }
{
    if is_text(b"tails", word) {
        Some(Pass::Tails)
    } else if is_text(b"join", word) {
        Some(Pass::Join)
    } else if is_text(b"arguments", word) {
        Some(Pass::Arguments)
    } else if is_text(b"optimise", word) {
        Some(Pass::Optimise)
    } else if is_text(b"clean", word) {
        Some(Pass::Clean)
    } else if is_text(b"fold", word) {
        Some(Pass::Fold)
    } else if is_text(b"number", word) {
        Some(Pass::Number)
    } else if is_text(b"copies", word) {
        Some(Pass::Copies)
    } else if is_text(b"motion", word) {
        Some(Pass::Motion)
    } else if is_text(b"divisions", word) {
        Some(Pass::Divisions)
    } else if is_text(b"sink", word) {
        Some(Pass::Sink)
    } else if is_text(b"comparisons", word) {
        Some(Pass::Comparisons)
    } else if is_text(b"terms", word) {
        Some(Pass::Terms)
    } else if is_text(b"bounds", word) {
        Some(Pass::Bounds)
    } else if is_text(b"extensions", word) {
        Some(Pass::Extensions)
    } else if is_text(b"unread", word) {
        Some(Pass::Unread)
    } else if is_text(b"wanted", word) {
        Some(Pass::Wanted)
    } else if is_text(b"demanded", word) {
        Some(Pass::Demanded)
    } else if is_text(b"known", word) {
        Some(Pass::Known)
    } else if is_text(b"called", word) {
        Some(Pass::Called)
    } else {
        None
    }
}
