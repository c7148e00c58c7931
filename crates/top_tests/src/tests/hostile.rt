// Broken texts, odd graphs and devices that fail: one table of calls, and what each of them leaves.
use crate::tests::devices::{Devices, Kind, Left, NO_FAULT, SMALLEST, SMALLEST_OUTPUT, leaves};
use crate::tests::hostile::Due::{All, Bad, Line, Output, Part, Refused, Same};
use crate::tests::hostile::Given::{
    Bytes, Faultless, Front, InterruptedRead, InterruptedWrite, Lines, Name, Prints, Reads, Text,
    Units, Writes,
};
use std::alloc::{AllocError, Global};
use std::mem;
use std::test::Fail;

/// A case: what is given, and what is left.
type Case = (Given, Due);

/// What a case is given. Where it has two numbers, it is tried for each number from the one to the other.
#[derive(Clone, Copy)]
enum Given {
    /// This text.
    Text(&'static [u8]),
    /// So many times this byte.
    Bytes(usize, u8),
    /// So many units of one name.
    Units(usize),
    /// A program of so many prints.
    Prints(usize),
    /// A program that receives a variable with a name of so many bytes.
    Name(usize),
    /// So many of the first bytes of this text.
    Front(&'static [u8], u64, u64),
    /// The smallest program, five bytes a call; the source fails at this call.
    Reads(u64, u64),
    /// The smallest program; the output takes a byte a call, and fails at this call.
    Writes(u64, u64),
    /// This text; the output fails at the call of the first number, the error output at that of the second, where 0 is
    /// none.
    Lines(&'static [u8], u64, u64),
    /// The smallest program; a signal interrupts each read.
    InterruptedRead,
    /// The smallest program; a signal interrupts each write to the output.
    InterruptedWrite,
    /// This text, from a source that never fails to a sink that never fails and keeps nothing.
    Faultless(&'static [u8]),
}

/// What the call of a case is to leave: its status and its outputs.
#[derive(Clone, Copy)]
enum Due {
    /// Status 0, and the text that was given as the output.
    Same,
    /// Status 0, and this output.
    Output(&'static [u8]),
    /// This status, nothing on the output, and this line on the error output.
    Line(u8, &'static [u8]),
    /// Status 2, nothing on the output, and this line on the error output.
    Bad(&'static [u8]),
    /// Status 2, nothing on the output, and some line on the error output.
    Refused,
    /// Status 7 with its line. Each write takes one byte, so where call k fails, k - 1 bytes of this output stand.
    Part(&'static [u8]),
    /// This status, this output, and these bytes on the error output.
    All(u8, &'static [u8], &'static [u8]),
}

/// The cases of `optimise`.
const CASES: [Case; 25] = [
    // Each proper prefix of a text, of which the longest lacks the last line feed alone, and the text.
    (Front(MOST_FORMS, 0, 186), Refused),
    (Front(MOST_FORMS, 187, 188), Output(MOST_FORMS)),
    // As many bytes as a text may have, and one more.
    (Bytes(1_048_576, b'\xff'), Bad(b"line 1: bad byte\n")),
    (Bytes(1_048_576, b'('), Bad(b"line 1: unexpected\n")),
    (Bytes(1_048_576, b' '), Bad(b"no unit\n")),
    (Bytes(1_048_577, b' '), Bad(TOO_LONG)),
    // Bytes that no token has, and the same in a comment.
    (Text(b"f: begin\n\x00\n"), Bad(b"line 2: bad byte\n")),
    (Text(ODD_COMMENT), Output(SMALLEST_OUTPUT)),
    // A text that ends with an arrow of three bytes, and inside of it.
    (Front(ARROW, 14, 14), Bad(b"line 2: unexpected\n")),
    (Front(ARROW, 12, 13), Bad(b"line 2: bad byte\n")),
    // As many bytes as a name may have, and one more.
    (Name(64), Same),
    (Name(65), Bad(b"line 2: long name\n")),
    // One more unit than a program may have, and one more instruction than a unit.
    (Units(257), Bad(b"too many units\n")),
    (Prints(16385), Bad(b"line 16386: too many instructions\n")),
    // A loop of one test.
    (Text(SELF_LOOP), Same),
    // A read that fails, and the call after the last one.
    (Reads(1, 5), Line(6, b"read fault\n")),
    (Reads(6, 6), Output(SMALLEST_OUTPUT)),
    // A write that fails, and the call after the last one.
    (Writes(1, 25), Part(SMALLEST_OUTPUT)),
    (Writes(26, 26), Output(SMALLEST_OUTPUT)),
    // A fault of the error output changes neither the status nor the output, and cuts the line.
    (Lines(b"", 0, 1), All(2, b"", b"")),
    (Lines(SMALLEST, 0, 1), Output(SMALLEST_OUTPUT)),
    (Lines(SMALLEST, 11, 2), All(7, b"main: begi", b"writ")),
    // A call that a signal interrupts has failed.
    (InterruptedRead, Line(6, b"read fault\n")),
    (InterruptedWrite, Line(7, b"write fault\n")),
    // Devices that never fail.
    (Faultless(MOST_FORMS), Output(b"")),
];

/// Cases of other commands: a loop that is entered at two places, reads and writes that fail, and a trial, which reads
/// nothing, and whose writes fail.
const OTHERS: [(&str, Case); 9] = [
    ("move", (Text(IRREDUCIBLE), Output(IRREDUCIBLE_OUTPUT))),
    ("ranges", (Writes(1, 10), Part(b"unit main\n"))),
    ("divisions", (Reads(1, 5), Line(6, b"read fault\n"))),
    ("tails", (Writes(1, 25), Part(SMALLEST_OUTPUT))),
    ("join", (Reads(1, 5), Line(6, b"read fault\n"))),
    ("thorough", (Writes(1, 25), Part(SMALLEST_OUTPUT))),
    ("passes sink", (Reads(1, 5), Line(6, b"read fault\n"))),
    (TRIAL, (Reads(1, 1), Output(TRIAL_OUTPUT))),
    (TRIAL, (Writes(1, 3), Part(TRIAL_OUTPUT))),
];

/// The line of a text that is too long.
const TOO_LONG: &[u8] = b"text longer than 1048576 bytes\n";

/// A program with most forms, of which the passes change nothing.
const MOST_FORMS: &[u8] = b"\
global g
main: begin
receive a(val)
L1: x <- f,(a,int;-1,int)
print x
if x < 3 goto L1
if x = 9 trap 255
g <- x
return x
end
f: begin
receive b(val)
receive c(val)
d <- b / c
return d
end
";

/// A text that ends with an arrow of three bytes.
const ARROW: &[u8] = b"f: begin\nx \xe2\x86\x90";

/// The smallest program behind a comment.
const ODD_COMMENT: &[u8] = b"|| \xff \x00 || ?\nmain: begin\nend\n";

/// A loop of one test.
const SELF_LOOP: &[u8] = b"main: begin\nreceive a(val)\nL1: if a goto L1\nreturn a\nend\n";

/// A loop that is entered at two places.
const IRREDUCIBLE: &[u8] = b"\
main: begin
receive a(val)
receive b(val)
if a goto L2
L1: x <- a + b
L2: y <- a + b
if y < 9 goto L1
return x
end
";

/// What `move` makes of it.
const IRREDUCIBLE_OUTPUT: &[u8] = b"\
main: begin
receive a(val)
receive b(val)
if a goto L3
h1 <- a + b
L1: x <- h1
L2: y <- h1
if y < 9 goto L1
return x
L3: h1 <- a + b
goto L2
end
";

/// The trial of one unit.
pub const TRIAL: &str = "trial 0018446744073709551615 1";

/// Its summary.
pub const TRIAL_OUTPUT: &[u8] = b"\
source instructions 147
result instructions 90
source evals 194
result evals 86
printed 14
";

/// Each call leaves what its case says.
#[test]
fn hostile_calls(rt: HostRuntime) -> Result<(), Fail> {
    for (number, case) in CASES.iter().enumerate() {
        assert!(rt; is_right(rt.alloc(), "optimise", *case)?, "case {number}");
    }
    for (words, case) in OTHERS.iter() {
        assert!(rt; is_right(rt.alloc(), words, *case)?, "{words}");
    }
    Ok(())
}

/// Whether a case leaves what it says, for each of its numbers.
fn is_right(alloc: Global, words: &str, case: Case) -> Result<bool, AllocError> {
    let (first, last) = case.0.numbers();
    for number in first..=last {
        if !is_right_at(alloc, words, case, number)? {
            return Ok(false);
        }
    }
    Ok(true)
}

/// Whether it leaves that for this number.
fn is_right_at(alloc: Global, words: &str, case: Case, number: u64) -> Result<bool, AllocError> {
    let text = case.0.text(alloc, number)?;
    let is_right = is_right_with(alloc, words, case, number, &text);
    mem::drop(text);
    is_right
}

/// The same, with this text.
fn is_right_with(
    alloc: Global,
    words: &str,
    case: Case,
    number: u64,
    text: &[u8],
) -> Result<bool, AllocError> {
    let (given, due) = case;
    leaves(
        alloc,
        words,
        text,
        given.devices(number),
        due.left(text, number),
    )
}

impl Given {
    /// The first and the last number for which a case is tried.
    fn numbers(self) -> (u64, u64) {
        match self {
            Given::Front(_, first, last) => (first, last),
            Given::Reads(first, last) => (first, last),
            Given::Writes(first, last) => (first, last),
            _ => (1, 1),
        }
    }

    /// The text that is given.
    fn text(self, alloc: Global, number: u64) -> Result<Vec<u8>, AllocError> {
        match self {
            Given::Text(text) => text.to_vec(alloc),
            Given::Bytes(count, byte) => vec![in alloc; byte; count],
            Given::Units(count) => repeated(alloc, b"", b"u: begin\nend\n", count, b""),
            Given::Prints(count) => repeated(
                alloc,
                b"main: begin\n",
                b"print 1\n",
                count,
                b"end\n",
            ),
            Given::Name(bytes) => {
                let (start, end) = (b"f: begin\nreceive ", b"(val)\nreturn 0\nend\n");
                repeated(alloc, start, b"n", bytes, end)
            }
            Given::Front(text, ..) => text.get(..number as usize).unwrap_or(text).to_vec(alloc),
            Given::Lines(text, ..) => text.to_vec(alloc),
            Given::Faultless(text) => text.to_vec(alloc),
            _ => SMALLEST.to_vec(alloc),
        }
    }

    /// How the devices behave.
    fn devices(self, number: u64) -> Devices {
        match self {
            Given::Reads(..) => slow(number, 0, 0),
            Given::Writes(..) => slow(0, number, 0),
            Given::Lines(_, write, line) => slow(0, write, line),
            Given::InterruptedRead => of_kind(Kind::InterruptedRead),
            Given::InterruptedWrite => of_kind(Kind::InterruptedWrite),
            Given::Faultless(_) => of_kind(Kind::Faultless),
            _ => NO_FAULT,
        }
    }
}

/// Devices of a kind in which no other fault occurs.
fn of_kind(kind: Kind) -> Devices {
    Devices { kind, ..NO_FAULT }
}

/// Devices that move few bytes a call, and fail at these calls.
fn slow(failing_read: u64, failing_write: u64, failing_line: u64) -> Devices {
    Devices {
        read_piece: 5,
        failing_read,
        write_piece: 1,
        failing_write,
        failing_line,
        ..NO_FAULT
    }
}

impl Due {
    /// The same, of a call with this text and number.
    fn left(self, text: &[u8], number: u64) -> Left<'_> {
        match self {
            Due::Same => Left::Output(text),
            Due::Output(output) => Left::Output(output),
            Due::Line(status, line) => Left::Line(status, line),
            Due::Bad(line) => Left::Line(2, line),
            Due::Refused => Left::Refused,
            Due::Part(output) => Left::All(7, front(output, number), b"write fault\n"),
            Due::All(status, output, line) => Left::All(status, output, line),
        }
    }
}

/// The bytes before the one of this number, counted from 1.
fn front(bytes: &[u8], number: u64) -> &[u8] {
    bytes
        .get(..(number as usize).saturating_sub(1))
        .unwrap_or(bytes)
}

/// A text that has the same piece so many times, between a start and an end.
pub fn repeated(
    alloc: Global,
    start: &[u8],
    piece: &[u8],
    count: usize,
    end: &[u8],
) -> Result<Vec<u8>, AllocError> {
    let mut text = Vec::new(alloc);
    push_repeated(&mut text, start, piece, count, end)?;
    Ok(text)
}

/// Appends it.
fn push_repeated(
    text: &mut Vec<u8>,
    start: &[u8],
    piece: &[u8],
    count: usize,
    end: &[u8],
) -> Result<(), AllocError> {
    text.extend_from_slice(start)?;
    for _ in 0..count {
        text.extend_from_slice(piece)?;
    }
    text.extend_from_slice(end)
}
