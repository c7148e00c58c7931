// What texts are read as: the examples of `text_examples.rt`.
ghost use Rattle.std.specs.Prelude.{◌≤◌, length};
ghost use Rattle.mir_base.specs.Limits.{most_bytes};

use crate::tests::shown::{put_changes, put_program};
use crate::tests::text_examples::TEXTS;
use mir_base::{MOST_BYTES, Memory};
use mir_parse::{Raw, read_text};
use mir_print::text_is_read_back;
use mir_valid::check;
use std::alloc::Global;
use std::mem;
use std::test::Fail;

/// Each example.
#[test]
fn examples_of_texts(rt: HostRuntime) -> Result<(), Fail> {
    for example in TEXTS.split("--- ").skip(1) {
        assert!(rt; is_right(rt.alloc(), example)?, "{example}");
    }
    Ok(())
}

/// Whether the text of an example is read as it says.
fn is_right(alloc: Global, example: &str) -> Result<bool, Memory> {
    let Some((text, wanted)) = text_and_answer(example) else {
        return Ok(false);
    };
    if text.len() > MOST_BYTES {
        return Ok(false);
    }
    let mut made = String::new(alloc);
    let put = put_as_read(alloc, &mut made, text);
    let right = is_wanted(alloc, text, made.as_str(), wanted);
    mem::drop(made);
    put?;
    right
}

/// The text of an example, and what it is to be read as.
fn text_and_answer(example: &str) -> Option<(&str, &str)> {
    let (_, example) = example.split_once('\n')?;
    example.split_once("$ ")
}

/// Whether what was made of a text is the wanted text, the same text, or the one with the wanted changes.
fn is_wanted(alloc: Global, text: &str, made: &str, wanted: &str) -> Result<bool, Memory> {
    if wanted == "same\n" {
        return Ok(made == text);
    }
    match wanted.strip_prefix("changes\n") {
        Some(changes) => are_changes(alloc, text, made, changes),
        None => Ok(made == wanted),
    }
}

/// Whether this changes from one text to the other.
fn are_changes(alloc: Global, before: &str, after: &str, wanted: &str) -> Result<bool, Memory> {
    let mut changes = String::new(alloc);
    let put = put_changes(&mut changes, before, after);
    let are = changes.as_str() == wanted;
    mem::drop(changes);
    put?;
    Ok(are)
}

/// Appends the canonical text of the program of a text, or the line of its refusal.
fn put_as_read(alloc: Global, made: &mut String, text: &str) -> Result<(), Memory>
    requires { length text.now ≤ most_bytes }
{
    match read_text(alloc, text.as_bytes()) {
        Ok(raw) => {
            let put = put_as_checked(alloc, made, &raw);
            mem::drop(raw);
            put
        }
        Err(fault) => write!(made, "{fault}\n"),
    }
}

/// The same, of a raw program.
fn put_as_checked(alloc: Global, made: &mut String, raw: &Raw) -> Result<(), Memory> {
    match check(alloc, raw) {
        Ok(program) => {
            text_is_read_back(&program);
            let put = put_program(alloc, made, &program);
            mem::drop(program);
            put
        }
        Err(fault) => write!(made, "{fault}\n"),
    }
}
