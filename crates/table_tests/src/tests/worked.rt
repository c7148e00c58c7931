// Calls of `tables` over devices in memory. Of the values that have memory of their own each function holds one alone,
// over a call that does not fail: the proof of a test becomes long where several are to be given back.
use crate::tests::examples::{EXAMPLES, SMALLEST_TABLES};
use crate::tests::word_examples::{BOUNDS, DEMANDED, DIVISIONS, JOINS, TAILS, WANTED};
use mir_outside::{MemSink, MemSource};
use mir_table::tables;
use std::alloc::{AllocError, Global};
use std::mem;
use std::test::Fail;

/// What a call is to leave.
#[derive(Clone, Copy)]
enum Left<'a> {
    /// This status, this output, and these bytes on the error output.
    All(u8, &'a str, &'a str),
    /// Status 0, and on the output, between `$` lines, lines that stand there one after the other.
    Lines(&'a str),
}

impl Left<'_> {
    /// Whether this is what a call left.
    fn is(self, status: u8, out: &[u8], err: &[u8]) -> bool {
        match self {
            Left::All(wanted, output, line) => {
                status == wanted && out == output.as_bytes() && err == line.as_bytes()
            }
            Left::Lines(wanted) => status == 0 && has_all(out, wanted),
        }
    }
}

/// Whether the bytes have the lines between the `$` lines.
fn has_all(out: &[u8], wanted: &str) -> bool {
    for lines in wanted.split("$\n") {
        if !has_lines(out, lines.as_bytes()) {
            return false;
        }
    }
    true
}

/// Whether the bytes have the piece, from the beginning of a line on.
fn has_lines(text: &[u8], piece: &[u8]) -> bool {
    let mut begins = true;
    for start in 0..text.len() {
        if begins && text[start..].starts_with(piece) {
            return true;
        }
        begins = text[start] == b'\n';
    }
    false
}

/// Whether a call with this word and this text leaves this, where the write of this number fails, or none with 0. An
/// empty word is none.
fn leaves(
    alloc: Global,
    word: &str,
    text: &str,
    failing: u64,
    left: Left,
) -> Result<bool, AllocError> {
    if word.is_empty() {
        return leaves_with(alloc, &[], text, failing, left);
    }
    let words = [String::from_str(alloc, word)?];
    let leaves = leaves_with(alloc, &words, text, failing, left);
    mem::drop(words);
    leaves
}

/// The same with these words.
fn leaves_with(
    alloc: Global,
    words: &[String],
    text: &str,
    failing: u64,
    left: Left,
) -> Result<bool, AllocError> {
    let text = text.as_bytes().to_vec(alloc)?;
    let mut source = MemSource::new(text, 4096, Vec::new(alloc));
    let leaves = leaves_from(alloc, words, &mut source, failing, left);
    mem::drop(source);
    leaves
}

/// The same, from this source.
fn leaves_from(
    alloc: Global,
    words: &[String],
    source: &mut MemSource,
    failing: u64,
    left: Left,
) -> Result<bool, AllocError> {
    let fails = [failing].to_vec(alloc)?;
    let mut out = MemSink::new(alloc, 4096, fails, 140_000)?;
    let leaves = leaves_in(alloc, words, source, &mut out, left);
    mem::drop(out);
    leaves
}

/// The same, into this sink.
fn leaves_in(
    alloc: Global,
    words: &[String],
    source: &mut MemSource,
    out: &mut MemSink,
    left: Left,
) -> Result<bool, AllocError> {
    let mut err = MemSink::new(alloc, 4, Vec::new(alloc), 200)?;
    let status = tables(alloc, words, source, out, &mut err);
    let leaves = left.is(status, out.written(), err.written());
    mem::drop(err);
    Ok(leaves)
}

/// Programs, with lines of their tables, of all or of those of a word.
#[test]
fn tables_of_examples(rt: HostRuntime) -> Result<(), Fail> {
    for (word, examples) in WORKED.iter() {
        assert_eq!(rt;
            first_wrong(rt.alloc(), word, examples)?,
            None,
            "with {word}"
        );
    }
    Ok(())
}

/// The first example whose tables, of all or of those of this word, have not its lines.
fn first_wrong<'a>(
    alloc: Global,
    word: &str,
    examples: &'a str,
) -> Result<Option<&'a str>, AllocError> {
    for example in examples.split("# ").skip(1) {
        if !is_right(alloc, word, example)? {
            return Ok(Some(example));
        }
    }
    Ok(None)
}

/// The word of each of these examples, or none where it is empty.
const WORKED: [(&str, &str); 7] = [
    ("", EXAMPLES),
    ("divisions", DIVISIONS),
    ("tails", TAILS),
    ("join", JOINS),
    ("bounds", BOUNDS),
    ("wanted", WANTED),
    ("demanded", DEMANDED),
];

/// Whether the tables of an example have its lines. An example is a name, a text, and behind each line `$` lines that
/// stand in the tables one after the other.
fn is_right(alloc: Global, word: &str, example: &str) -> Result<bool, AllocError> {
    match text_and_lines(example) {
        Some((text, wanted)) => leaves(alloc, word, text, 0, Left::Lines(wanted)),
        None => Ok(false),
    }
}

/// The text of an example, and its lines.
fn text_and_lines(example: &str) -> Option<(&str, &str)> {
    let (_, example) = example.split_once('\n')?;
    example.split_once("$\n")
}

/// The whole text of the smallest program, a write that fails, a text that is refused, and words.
#[test]
fn whole_calls(rt: HostRuntime) -> Result<(), Fail> {
    for (word, text, failing, left) in WHOLE_CALLS.iter() {
        assert!(rt;
            leaves(rt.alloc(), word, text, *failing, *left)?,
            "with {word}: {text}"
        );
    }
    Ok(())
}

/// Whole calls: the word, the text, the number of the write that fails, and what is left.
const WHOLE_CALLS: [(&str, &str, u64, Left<'static>); 5] = [
    ("", SMALLEST, 0, Left::All(0, SMALLEST_TABLES, "")),
    ("optimise", SMALLEST, 0, Left::All(0, SMALLEST_TABLES, "")),
    ("", SMALLEST, 1, Left::All(7, "", "write fault\n")),
    (
        "",
        "main: begin\n",
        0,
        Left::All(2, "", "text ends inside a unit\n"),
    ),
    ("move", SMALLEST, 0, Left::All(1, "", USAGE)),
];

/// The smallest program.
const SMALLEST: &str = "main: begin\nend\n";

/// What is written for words of no tables.
const USAGE: &str =
    "usage: mir_tables [optimise | divisions | tails | join | bounds | wanted | demanded]\n";
