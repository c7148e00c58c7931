// The status of each cause, and its line on the error output. Writing it does not allocate.
ghost use Rattle.std.specs.Prelude.{◌≡◌, ◌++◌, OnOk, OnErr, Some};
ghost use Rattle.std.specs.Io.KnownBytes.{Appends};
ghost use Rattle.mir_outside.specs.Causes.{HasCause};
ghost use Rattle.mir_outside.specs.Transfer.{AppendsPart};
ghost use Rattle.mir_top.specs.Streams.{stream_of, Tried};
ghost use Rattle.mir_top.specs.Complaints.{complaint_of, complaint_line, number_text, of_bytes, of_making, of_program, of_reading, of_text, of_tokens, out_of_memory, refused_at, write_fault, ArePartsOf};

use crate::Cause;
use itoa::Buffer;
use mir_interp::RunFault;
use mir_lex::LexFault;
use mir_outside::{Failed, ReadFault, Sink, write_all};
use mir_parse::{ParseFault, TextFault};
use mir_valid::ValidFault;

/// The parts of a complaint: its status, and a line of two texts, with a number between them where there is one.
#[derive(Clone, Copy)]
struct ComplaintParts {
    status: u8,
    before: &'static [u8],
    number: Option<usize>,
    after: &'static [u8],
}

/// Writes the line of the complaint of this cause, and returns its status. It does not allocate.
pub(crate) fn complain<E: Sink>(cause: &Cause, err: &mut E) -> u8
    ensures status { result ≡ (complaint_of cause.now).status }
    ensures told { Tried (stream_of E.written E.faults err.old err.new)
        (complaint_of cause.now).line }
{
    let complaint = of_cause(cause);
    write_line(complaint, err);
    complaint.status
}

/// Writes the line that says that a write failed, and returns the status. It does not allocate.
pub fn complain_of_write<E: Sink>(err: &mut E) -> u8
    ensures status { result ≡ write_fault.status }
    ensures told { Tried (stream_of E.written E.faults err.old err.new) write_fault.line }
{
    let complaint = plain(7, b"write fault\n");
    write_line(complaint, err);
    complaint.status
}

/// Writes the line that says that memory ran out, and returns the status. It does not allocate.
pub fn complain_of_memory<E: Sink>(err: &mut E) -> u8
    ensures status { result ≡ out_of_memory.status }
    ensures told { Tried (stream_of E.written E.faults err.old err.new) out_of_memory.line }
{
    let complaint = out_of_memory();
    write_line(complaint, err);
    complaint.status
}

/// Writes the line of the complaint, or a proper prefix of it where the sink fails.
fn write_line<E: Sink>(complaint: ComplaintParts, err: &mut E)
    ensures { Tried (stream_of E.written E.faults err.old err.new) (complaint_line complaint) }
{
    let mut buffer = Buffer::new();
    let number = digits(&mut buffer, complaint.number);
    let _ = write_three(err, complaint.before, number, complaint.after);
}

/// The decimal digits of the number, in the buffer.
fn digits(buffer: &mut Buffer, number: Option<usize>) -> &[u8]
    ensures { result.now ≡ number_text number }
{
    match number {
        Some(number) => buffer.format(number).as_bytes(),
        None => b"",
    }
}

/// Writes the three pieces, or a proper prefix of them where the sink fails.
fn write_three<K: Sink>(
    sink: &mut K,
    first: &[u8],
    second: &[u8],
    third: &[u8],
) -> Result<(), Failed>
    ensures whole { OnOk result (Appends (K.written sink.old) (K.written sink.new)
        (first.now ++ second.now ++ third.now)) }
    ensures part { OnErr result (AppendsPart (K.written sink.old) (K.written sink.new)
        (first.now ++ second.now ++ third.now)) }
    ensures cause { HasCause (K.faults sink.old) (K.faults sink.new) result }
{
    write_all(sink, first)?;
    write_all(sink, second)?;
    write_all(sink, third)
}

/// A complaint without a number.
fn plain(status: u8, text: &'static [u8]) -> ComplaintParts
    ensures status { result.status ≡ status }
    ensures line { complaint_line result ≡ text.now }
{
    ComplaintParts {
        status,
        before: text,
        number: None,
        after: b"",
    }
}

/// The complaint of a call that made no output.
fn of_cause(cause: &Cause) -> ComplaintParts
    ensures { ArePartsOf (complaint_of cause.now) result }
{
    match cause {
        Cause::Usage => plain(
            1,
            b"usage: mir optimise | stages | move | ranges | divisions | tails | join | thorough | passes [PASS ..] | run STEPS [N ..] | trial NUMBER UNITS\n",
        ),
        Cause::Reading(fault) => of_reading(fault),
        Cause::Text(fault) => of_text(fault),
        Cause::Program(fault) => of_program(fault),
        Cause::Making(fault) => of_making(fault),
    }
}

/// The complaint of a text that was not read.
fn of_reading(fault: &ReadFault) -> ComplaintParts
    ensures { ArePartsOf (of_reading fault.now) result }
{
    match fault {
        ReadFault::Failed => plain(6, b"read fault\n"),
        ReadFault::TooLong => plain(2, b"text longer than 1048576 bytes\n"),
        ReadFault::Memory(_) => out_of_memory(),
    }
}

/// The complaint of a text that spells no raw program.
fn of_text(fault: &TextFault) -> ComplaintParts
    ensures { ArePartsOf (of_text fault.now) result }
{
    match fault {
        TextFault::Lex(fault) => of_bytes(fault),
        TextFault::Parse(fault) => of_tokens(fault),
    }
}

/// The complaint of bytes that are no tokens.
fn of_bytes(fault: &LexFault) -> ComplaintParts
    ensures { ArePartsOf (of_bytes fault.now) result }
{
    match fault {
        LexFault::BadByte(line) => at(*line, b": bad byte\n"),
        LexFault::BadNumber(line) => at(*line, b": bad number\n"),
        LexFault::LongName(line) => at(*line, b": long name\n"),
        LexFault::Memory(_) => out_of_memory(),
    }
}

/// The complaint of tokens that are no raw program.
fn of_tokens(fault: &ParseFault) -> ComplaintParts
    ensures { ArePartsOf (of_tokens fault.now) result }
{
    match fault {
        ParseFault::Unexpected(line) => at(*line, b": unexpected\n"),
        ParseFault::Unfinished => plain(2, b"text ends inside a unit\n"),
        ParseFault::Memory(_) => out_of_memory(),
    }
}

/// The complaint of a raw program that is not valid.
fn of_program(fault: &ValidFault) -> ComplaintParts
    ensures { ArePartsOf (of_program fault.now) result }
{
    match fault {
        ValidFault::NoUnit => plain(2, b"no unit\n"),
        ValidFault::TooManyUnits => plain(2, b"too many units\n"),
        ValidFault::SameUnit(line) => at(*line, b": unit named twice\n"),
        ValidFault::TooManyInsts(line) => at(*line, b": too many instructions\n"),
        ValidFault::LateReceive(line) => at(*line, b": late receive\n"),
        ValidFault::SameReceive(line) => at(*line, b": variable received twice\n"),
        ValidFault::TooManyReceives(line) => at(*line, b": too many receives\n"),
        ValidFault::SameLabel(line) => at(*line, b": label named twice\n"),
        ValidFault::NoLabel(line) => at(*line, b": no such label\n"),
        ValidFault::NoSuchUnit(line) => at(*line, b": no such unit\n"),
        ValidFault::WrongCount(line) => at(*line, b": wrong number of arguments\n"),
        ValidFault::SameGlobal(line) => at(*line, b": global named twice\n"),
        ValidFault::TooManyGlobals(line) => at(*line, b": too many globals\n"),
        ValidFault::GlobalReceive(line) => at(*line, b": global received\n"),
        ValidFault::BadTrap(line) => at(*line, b": bad trap number\n"),
        ValidFault::Memory(_) => out_of_memory(),
    }
}

/// The complaint of a command that makes nothing of its program.
fn of_making(fault: &RunFault) -> ComplaintParts
    ensures { ArePartsOf (of_making fault.now) result }
{
    match fault {
        RunFault::WrongInputs { wanted } => ComplaintParts {
            status: 1,
            before: b"wrong inputs: ",
            number: Some(*wanted),
            after: b" wanted\n",
        },
        RunFault::Deep => plain(5, b"deep: more than 10000 frames\n"),
        RunFault::Memory(_) => out_of_memory(),
    }
}

/// The complaint that memory ran out.
fn out_of_memory() -> ComplaintParts
    ensures { ArePartsOf out_of_memory result }
{
    plain(8, b"out of memory\n")
}

/// What is wrong with a text at a line of it.
fn at(line: usize, what: &'static [u8]) -> ComplaintParts
    ensures { ArePartsOf (refused_at line what.now) result }
{
    ComplaintParts {
        status: 2,
        before: b"line ",
        number: Some(line),
        after: what,
    }
}
