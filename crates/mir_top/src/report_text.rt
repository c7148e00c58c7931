// The text of a report.
ghost use Rattle.std.specs.Prelude.{◌≡◌, flat_map, IfOk};
ghost use Rattle.mir_base.specs.Appending.{AppendsOnOk};
ghost use Rattle.mir_top.specs.Outputs.{finish_text, number_line, report_text};

use itoa::Buffer;
use mir_base::{Memory, Trap};
use mir_interp::{Finish, Report};
use std::alloc::Global;

/// The printed numbers, one a line, then how the run stands, then its evaluations.
pub(crate) fn text_of_report(alloc: Global, report: &Report) -> Result<Vec<u8>, Memory>
    ensures { IfOk result (λ text. text.items ≡ report_text report.now) }
{
    let mut text = Vec::new(alloc);
    put_numbers(&mut text, report.lines.items())?;
    put_finish(&mut text, report.finish)?;
    text.extend_from_slice(b"evals ")?;
    let mut buffer = Buffer::new();
    text.extend_from_slice(buffer.format(report.evals).as_bytes())?;
    text.extend_from_slice(b"\n")?;
    Ok(text)
}

/// Appends each number, on a line of its own.
fn put_numbers(text: &mut Vec<u8>, numbers: &[i64]) -> Result<(), Memory>
    ensures { AppendsOnOk result text.old text.new (flat_map number_line numbers.now) }
{
    for number in numbers {
        put_number(text, *number)?;
    }
    Ok(())
}

/// Appends a number, on a line of its own.
fn put_number(text: &mut Vec<u8>, number: i64) -> Result<(), Memory>
    ensures { AppendsOnOk result text.old text.new (number_line number) }
{
    let mut buffer = Buffer::new();
    text.extend_from_slice(buffer.format(number).as_bytes())?;
    text.extend_from_slice(b"\n")
}

/// Appends the line that says how the run stands.
fn put_finish(text: &mut Vec<u8>, finish: Finish) -> Result<(), Memory>
    ensures { AppendsOnOk result text.old text.new (finish_text finish) }
{
    match finish {
        Finish::Running => text.extend_from_slice(b"running\n"),
        Finish::Ended(result) => {
            text.extend_from_slice(b"result ")?;
            put_number(text, result)
        }
        Finish::Trapped(Trap::ZeroDivisor) => text.extend_from_slice(b"trapped zero divisor\n"),
        Finish::Trapped(Trap::Raised(number)) => {
            text.extend_from_slice(b"trapped ")?;
            put_number(text, i64::from(number))
        }
    }
}
