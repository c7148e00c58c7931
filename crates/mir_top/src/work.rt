// From the words and the source to the output.
ghost use Rattle.std.specs.Prelude.{◌≡◌, ◌+◌, IfOk, IfErr, IfNone, IfSome, IsTrue, Some};
ghost use Rattle.mir_base.specs.Limits.{most_bytes};
ghost use Rattle.mir_outside.specs.Transfer.{TakesAtMost};
ghost use Rattle.mir_top.specs.Calls.{IsSubject, MakesOutput, Prevents};
ghost use Rattle.mir_top.specs.Commands.{command_of, reads_text, word_bytes, Reads};
ghost use Rattle.mir_top.specs.Due.{Needs};
ghost use Rattle.mir_top.specs.Streams.{stream_of, Untouched};

use crate::making::{Made, make};
use crate::{Cause, Command};
use mir_base::{MOST_BYTES, Program};
use mir_interp::RunFault;
use mir_outside::{Source, read_all};
use mir_parse::read_text;
use mir_trial::trial_program;
use mir_valid::check;
use std::alloc::Global;

/// Makes the output that the words ask, or answers why there is none. It is given no sink, so nothing is written yet.
pub(crate) fn prepare<S: Source>(
    alloc: Global,
    words: &[String],
    source: &mut S,
) -> Result<Made, Cause>
    ensures most { TakesAtMost (S.left source.old) (S.left source.new) (most_bytes + 1) }
    ensures unread { ¬ Reads (word_bytes words.now) →
        Untouched (stream_of S.left S.faults source.old source.new) }
    ensures made { IfOk result (λ made. MakesOutput (word_bytes words.now)
        (stream_of S.left S.faults source.old source.new) made.outcome made.output.items) }
    ensures prevented { IfErr result (Prevents (word_bytes words.now)
        (stream_of S.left S.faults source.old source.new)) }
{
    let Some(command) = Command::of(words) else {
        return Err(Cause::Usage);
    };
    let program = match subject(alloc, command, words, source) {
        Ok(program) => program,
        Err(cause) => return Err(cause),
    };
    match make(alloc, command, words, &program) {
        Ok(made) => Ok(made),
        Err(fault) => Err(Cause::Making(fault)),
    }
}

/// The program that the command of these words works on: that of the text, and for a trial the one that its numbers
/// draw.
fn subject<S: Source>(
    alloc: Global,
    command: Command,
    words: &[String],
    source: &mut S,
) -> Result<Program, Cause>
    requires { command_of (word_bytes words.now) ≡ Some command }
    ensures most { TakesAtMost (S.left source.old) (S.left source.new) (most_bytes + 1) }
    ensures unread { ¬ Reads (word_bytes words.now) →
        Untouched (stream_of S.left S.faults source.old source.new) }
    ensures subject { IfOk result (IsSubject (word_bytes words.now)
        (stream_of S.left S.faults source.old source.new) command) }
    ensures needs { IfOk result (Needs command) }
    ensures prevented { IfErr result (Prevents (word_bytes words.now)
        (stream_of S.left S.faults source.old source.new)) }
{
    match trial_numbers(command) {
        Some((number, units)) => match trial_program(alloc, number, units) {
            Ok(program) => Ok(program),
            Err(refusal) => Err(Cause::Making(RunFault::Memory(refusal))),
        },
        None => {
            let text = match read_all(alloc, source, MOST_BYTES) {
                Ok(text) => text,
                Err(fault) => return Err(Cause::Reading(fault)),
            };
            let raw = match read_text(alloc, &text) {
                Ok(raw) => raw,
                Err(fault) => return Err(Cause::Text(fault)),
            };
            match check(alloc, &raw) {
                Ok(program) => Ok(program),
                Err(fault) => Err(Cause::Program(fault)),
            }
        }
    }
}

/// The numbers of a trial; each other command reads the text.
fn trial_numbers(command: Command) -> Option<(u64, usize)>
    ensures trial { IfSome result (λ numbers. command ≡ Command.Trial numbers.0 numbers.1) }
    ensures text { IfNone result (IsTrue (reads_text command)) }
{
    match command {
        Command::Optimise => None,
        Command::Stages => None,
        Command::Move => None,
        Command::Ranges => None,
        Command::Divisions => None,
        Command::Tails => None,
        Command::Join => None,
        Command::Thorough => None,
        Command::Passes => None,
        Command::Run(_) => None,
        Command::Trial(number, units) => Some((number, units)),
    }
}
