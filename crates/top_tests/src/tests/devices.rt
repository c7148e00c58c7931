// Calls of `top` over devices, which fail where they are told to, and what these calls are to leave. Of the values that
// have memory of their own each function holds one alone, over a call that does not fail: the proof of a test becomes
// long where several are to be given back.
use mir_outside::{
    FaultlessSink, FaultlessSource, MemSink, MemSource, Sink, Source, StdSink, StdSource,
};
use mir_top::{faultless_top, top};
use std::alloc::{AllocError, Global};
use std::io::{ErrorKind, Read, Write};
use std::{io, mem};

/// The smallest program, and the output for it.
pub const SMALLEST: &[u8] = b"main: begin\nend\n";

pub const SMALLEST_OUTPUT: &[u8] = b"main: begin\nreturn 0\nend\n";

/// How the streams of a call behave: of what kind they are, how many bytes a call moves, the number of the call that
/// fails, where 0 is none, and whether memory may be refused.
#[derive(Clone, Copy)]
pub struct Devices {
    pub kind: Kind,
    pub read_piece: usize,
    pub failing_read: u64,
    pub write_piece: usize,
    pub failing_write: u64,
    pub failing_line: u64,
    pub may_refuse: bool,
}

/// The kinds of devices: in memory; with reads or with writes that a signal interrupts; and those that never fail, of
/// which the output keeps nothing.
#[derive(Clone, Copy)]
pub enum Kind {
    InMemory,
    InterruptedRead,
    InterruptedWrite,
    Faultless,
}

/// Devices in which no fault occurs.
pub const NO_FAULT: Devices = Devices {
    kind: Kind::InMemory,
    read_piece: 4096,
    failing_read: 0,
    write_piece: 4096,
    failing_write: 0,
    failing_line: 0,
    may_refuse: false,
};

/// What a call is to leave: its status and its outputs.
#[derive(Clone, Copy)]
pub enum Left<'a> {
    /// This status, this output, and these bytes on the error output.
    All(u8, &'a [u8], &'a [u8]),
    /// Status 0, and this output.
    Output(&'a [u8]),
    /// This status, nothing on the output, and this line on the error output.
    Line(u8, &'a [u8]),
    /// Status 2, nothing on the output, and some line on the error output.
    Refused,
    /// Status 0, and in each part of the output a program behind each of some titles.
    Stages(&'a [(&'a str, &'a str)]),
    /// Status 0, and a summary whose fourth number is at most the third.
    Trial,
}

impl Left<'_> {
    /// Whether this is what a call left.
    fn is(self, status: u8, out: &[u8], err: &[u8]) -> bool {
        match self {
            Left::All(wanted, output, line) => status == wanted && out == output && err == line,
            Left::Output(output) => status == 0 && out == output && err.is_empty(),
            Left::Line(wanted, line) => status == wanted && out.is_empty() && err == line,
            Left::Refused => status == 2 && out.is_empty() && is_line(err),
            Left::Stages(parts) => status == 0 && are_stages(out, parts) && err.is_empty(),
            Left::Trial => status == 0 && evaluates_no_more(out) && err.is_empty(),
        }
    }
}

/// Whether the bytes are one line.
fn is_line(bytes: &[u8]) -> bool {
    match bytes.split_last() {
        Some((last, rest)) => *last == b'\n' && !rest.contains(&b'\n'),
        None => false,
    }
}

/// Whether the output has these parts in turn.
fn are_stages(out: &[u8], parts: &[(&str, &str)]) -> bool {
    let mut rest = out;
    for (titles, program) in parts {
        match behind_stages(rest, titles, program.as_bytes()) {
            Some(behind) => rest = behind,
            None => return false,
        }
    }
    rest.is_empty()
}

/// What stands behind the program at each of these titles.
fn behind_stages<'a>(out: &'a [u8], titles: &str, program: &[u8]) -> Option<&'a [u8]> {
    let mut rest = out;
    for title in titles.split(", ") {
        rest = behind_stage(rest, title, program)?;
    }
    Some(rest)
}

/// What stands behind the program at this title.
fn behind_stage<'a>(out: &'a [u8], title: &str, program: &[u8]) -> Option<&'a [u8]> {
    let out = out.strip_prefix(b"|| ")?;
    let out = out.strip_prefix(title.as_bytes())?;
    out.strip_prefix(b"\n")?.strip_prefix(program)
}

/// Whether the fourth number of a summary is at most the third.
fn evaluates_no_more(out: &[u8]) -> bool {
    let Ok(text) = str::from_utf8(out) else {
        return false;
    };
    let before = number_after(text, "\nsource evals ");
    let after = number_after(text, "\nresult evals ");
    match (before, after) {
        (Some(before), Some(after)) => after <= before,
        _ => false,
    }
}

/// The number that stands behind this piece of a text.
fn number_after(text: &str, piece: &str) -> Option<u64> {
    let (_, rest) = text.split_once(piece)?;
    let (number, _) = rest.split_once('\n')?;
    number.parse::<u64>().ok()
}

/// Whether a call with these words and this text leaves this.
pub fn leaves(
    alloc: Global,
    words: &str,
    text: &[u8],
    on: Devices,
    left: Left,
) -> Result<bool, AllocError> {
    let words = owned(alloc, words)?;
    let leaves = match on.kind {
        Kind::InMemory => leaves_of(alloc, &words, text, on, left),
        Kind::InterruptedRead => leaves_of_interrupted(alloc, &words, on, left),
        Kind::InterruptedWrite => leaves_into_interrupted(alloc, &words, text, on, left),
        Kind::Faultless => leaves_without_fault(alloc, &words, text, on, left),
    };
    mem::drop(words);
    leaves
}

/// The words between the blanks.
fn owned(alloc: Global, words: &str) -> Result<Vec<String>, AllocError> {
    let mut owned = Vec::new(alloc);
    push_words(alloc, &mut owned, words)?;
    Ok(owned)
}

/// Appends the words between the blanks.
fn push_words(alloc: Global, owned: &mut Vec<String>, words: &str) -> Result<(), AllocError> {
    for word in words.split_whitespace() {
        owned.push(String::from_str(alloc, word)?)?;
    }
    Ok(())
}

/// The same, of a source in memory.
fn leaves_of(
    alloc: Global,
    words: &[String],
    text: &[u8],
    on: Devices,
    left: Left,
) -> Result<bool, AllocError> {
    let mut source = source(alloc, text, on)?;
    let leaves = leaves_from(alloc, words, &mut source, on, left);
    mem::drop(source);
    leaves
}

/// A source that has the text and fails at one call.
fn source(alloc: Global, text: &[u8], on: Devices) -> Result<MemSource, AllocError> {
    let fails = [on.failing_read].to_vec(alloc)?;
    let text = text.to_vec(alloc)?;
    Ok(MemSource::new(text, on.read_piece.max(1), fails))
}

/// The same, from this source.
fn leaves_from<S: Source>(
    alloc: Global,
    words: &[String],
    source: &mut S,
    on: Devices,
    left: Left,
) -> Result<bool, AllocError> {
    let mut out = sink(alloc, on.write_piece, on.failing_write, 140_000)?;
    let leaves = leaves_in(alloc, words, source, &mut out, on, left);
    mem::drop(out);
    leaves
}

/// A sink that fails at one call.
fn sink(alloc: Global, piece: usize, failing: u64, room: usize) -> Result<MemSink, AllocError> {
    let fails = [failing].to_vec(alloc)?;
    MemSink::new(alloc, piece.max(1), fails, room)
}

/// The same, into this sink.
fn leaves_in<S: Source>(
    alloc: Global,
    words: &[String],
    source: &mut S,
    out: &mut MemSink,
    on: Devices,
    left: Left,
) -> Result<bool, AllocError> {
    let mut err = sink(alloc, 4, on.failing_line, 200)?;
    let status = status_of(alloc, words, source, out, &mut err);
    let leaves = is_left(on, left, status, out.written(), err.written());
    mem::drop(err);
    Ok(leaves)
}

/// Whether a call over these devices left this, or told that memory ran out where it may.
fn is_left(on: Devices, left: Left, status: u8, out: &[u8], err: &[u8]) -> bool {
    left.is(status, out, err)
        || on.may_refuse && Left::Line(8, b"out of memory\n").is(status, out, err)
}

/// The status of a call over these devices.
fn status_of<S: Source, K: Sink>(
    alloc: Global,
    words: &[String],
    source: &mut S,
    out: &mut K,
    err: &mut MemSink,
) -> u8 {
    let reply = top(alloc, words, source, out, err);
    reply.status
}

/// A reader and a writer whose first call a signal interrupts. Each later one succeeds, so that one more try would
/// show.
#[derive(Drop)]
struct Interrupted {
    tried: bool,
}

impl Read for Interrupted {
    /// Reads nothing, and fails the first time.
    fn read(&mut self, _: &mut [u8]) -> io::Result<usize> {
        if self.tried {
            return Ok(0);
        }
        self.tried = true;
        Err(io::Error::from(ErrorKind::Interrupted))
    }
}

impl Write for Interrupted {
    /// Writes all, and fails the first time.
    fn write(&mut self, piece: &[u8]) -> io::Result<usize> {
        if self.tried {
            return Ok(piece.len());
        }
        self.tried = true;
        Err(io::Error::from(ErrorKind::Interrupted))
    }

    /// Has nothing to write.
    fn flush(&mut self) -> io::Result<()> {
        Ok(())
    }
}

/// Whether a call whose reads are interrupted leaves this.
fn leaves_of_interrupted(
    alloc: Global,
    words: &[String],
    on: Devices,
    left: Left,
) -> Result<bool, AllocError> {
    let mut source = StdSource::new(Interrupted { tried: false });
    leaves_from(alloc, words, &mut source, on, left)
}

/// Whether a call whose writes are interrupted leaves this; of its output nothing is kept.
fn leaves_into_interrupted(
    alloc: Global,
    words: &[String],
    text: &[u8],
    on: Devices,
    left: Left,
) -> Result<bool, AllocError> {
    let mut source = source(alloc, text, on)?;
    let leaves = leaves_by_line(alloc, words, &mut source, on, left);
    mem::drop(source);
    leaves
}

/// The same, from this source.
fn leaves_by_line(
    alloc: Global,
    words: &[String],
    source: &mut MemSource,
    on: Devices,
    left: Left,
) -> Result<bool, AllocError> {
    let mut err = sink(alloc, 4, on.failing_line, 200)?;
    let mut out = StdSink::new(Interrupted { tried: false });
    let status = status_of(alloc, words, source, &mut out, &mut err);
    let leaves = is_left(on, left, status, b"", err.written());
    mem::drop(err);
    Ok(leaves)
}

/// Whether a call over devices that never fail leaves this; of its output nothing is kept.
fn leaves_without_fault(
    alloc: Global,
    words: &[String],
    text: &[u8],
    on: Devices,
    left: Left,
) -> Result<bool, AllocError> {
    let mut source = FaultlessSource::new(text.to_vec(alloc)?);
    let leaves = faultless_leaves(alloc, words, &mut source, on, left);
    mem::drop(source);
    leaves
}

/// The same, from this source.
fn faultless_leaves(
    alloc: Global,
    words: &[String],
    source: &mut FaultlessSource,
    on: Devices,
    left: Left,
) -> Result<bool, AllocError> {
    let mut err = sink(alloc, 4, on.failing_line, 200)?;
    let status = faultless_status(alloc, words, source, &mut err);
    let leaves = is_left(on, left, status, b"", err.written());
    mem::drop(err);
    Ok(leaves)
}

/// The status of a call over devices that never fail.
fn faultless_status(
    alloc: Global,
    words: &[String],
    source: &mut FaultlessSource,
    err: &mut MemSink,
) -> u8 {
    let reply = faultless_top(alloc, words, source, &mut FaultlessSink::new(), err);
    reply.status
}
