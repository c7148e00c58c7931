// The commands, by their words.
ghost use Rattle.std.specs.Prelude.{◌≡◌, map, IfOk};
ghost use Rattle.std.specs.List.{list_all};
ghost use Rattle.mir_base.specs.Limits.{most_steps};
ghost use Rattle.mir_base.specs.Words.{is_text};
ghost use Rattle.mir_top.specs.Commands.{AsksRun, command_of, alone_of, chain_of, run_of, trial_of, trial_with, at_most, step_count, is_input, input_value, inputs_in, word_bytes};
ghost use Rattle.mir_top.specs.PassWords.{are_passes};

use crate::pass_words::are_passes;
use mir_base::{MOST_STEPS, MOST_UNITS, Memory, is_text};
use mir_lex::{signed, unsigned};
use std::alloc::Global;

/// What the words ask for.
#[derive(Clone, Copy, Debug, PartialEq, Eq)]
pub enum Command {
    /// `optimise`: the canonical text of the target of the program that is read.
    Optimise,
    /// `stages`: the canonical text of the program at each stage of the passes.
    Stages,
    /// `move`: the canonical text of the target of code motion alone.
    Move,
    /// `ranges`: of each temporary of code motion alone, how often it is set and read, and on how many edges it is
    /// held.
    Ranges,
    /// `divisions`: the canonical text of the target of the motion of divisions alone.
    Divisions,
    /// `tails`: the canonical text of the program with self tail calls as loops.
    Tails,
    /// `join`: the canonical text of the program with its leaves joined into their callers.
    Join,
    /// `thorough`: the canonical text of what turns of `tails`, `join`, `arguments`, `optimise`, `terms`, `demanded`,
    /// `known`, `extensions`, `unread` and `called` make of the program until a turn changes nothing.
    Thorough,
    /// `passes [PASS ..]`: the canonical text of what these passes make one after another, from the first to the last.
    Passes,
    /// `run STEPS [N ..]`: the report of the run of the program, with the inputs N, after so many steps or at its end.
    Run(u64),
    /// `trial NUMBER UNITS`: what the runs show of the program that NUMBER draws, with so many units, and of the target
    /// of its passes. It reads no text.
    Trial(u64, usize),
}

impl Command {
    /// The command that these words are, and `None` exactly where they are none. It does not allocate.
    pub fn of(words: &[String]) -> Option<Command>
        ensures { result ≡ command_of (word_bytes words.now) }
    {
        match words {
            [] => None,
            [word, arguments @ ..] => {
                if is_text(b"optimise", word.as_bytes()) {
                    alone(Command::Optimise, arguments)
                } else if is_text(b"stages", word.as_bytes()) {
                    alone(Command::Stages, arguments)
                } else if is_text(b"move", word.as_bytes()) {
                    alone(Command::Move, arguments)
                } else if is_text(b"ranges", word.as_bytes()) {
                    alone(Command::Ranges, arguments)
                } else if is_text(b"divisions", word.as_bytes()) {
                    alone(Command::Divisions, arguments)
                } else if is_text(b"tails", word.as_bytes()) {
                    alone(Command::Tails, arguments)
                } else if is_text(b"join", word.as_bytes()) {
                    alone(Command::Join, arguments)
                } else if is_text(b"thorough", word.as_bytes()) {
                    alone(Command::Thorough, arguments)
                } else if is_text(b"passes", word.as_bytes()) {
                    chain(arguments)
                } else if is_text(b"run", word.as_bytes()) {
                    run(arguments)
                } else if is_text(b"trial", word.as_bytes()) {
                    trial(arguments)
                } else {
                    None
                }
            }
        }
    }
}

/// The inputs that the words of a run give. It fails only with `Memory`.
pub(crate) fn inputs(alloc: Global, words: &[String]) -> Result<Vec<i64>, Memory>
    requires { AsksRun (word_bytes words.now) }
    ensures { IfOk result (λ inputs. inputs.items ≡ inputs_in (word_bytes words.now)) }
{
    match words {
        [] => Ok(Vec::new(alloc)),
        [_] => Ok(Vec::new(alloc)),
        [_, _, inputs @ ..] => numbers(alloc, inputs),
    }
}

/// The numbers of these words, with 0 for a word that is no input.
fn numbers(alloc: Global, words: &[String]) -> Result<Vec<i64>, Memory>
    ensures { IfOk result (λ numbers. numbers.items ≡ map input_value (word_bytes words.now)) }
{
    let mut numbers = Vec::new(alloc);
    for word in words {
        numbers.push(signed(word.as_bytes()).unwrap_or(0))?;
    }
    Ok(numbers)
}

/// The command, where no word follows its own.
fn alone(command: Command, arguments: &[String]) -> Option<Command>
    ensures { result ≡ alone_of command (word_bytes arguments.now) }
{
    match arguments {
        [] => Some(command),
        [_, ..] => None,
    }
}

/// The chain that the words after `passes` ask for.
fn chain(arguments: &[String]) -> Option<Command>
    ensures { result ≡ chain_of (word_bytes arguments.now) }
{
    if are_passes(arguments) {
        Some(Command::Passes)
    } else {
        None
    }
}

/// The run that the words after `run` ask for.
fn run(arguments: &[String]) -> Option<Command>
    ensures { result ≡ run_of (word_bytes arguments.now) }
{
    match arguments {
        [] => None,
        [steps, inputs @ ..] => {
            if are_numbers(inputs) {
                step_count(steps.as_bytes()).map(Command::Run)
            } else {
                None
            }
        }
    }
}

/// The trial that the words after `trial` ask for.
fn trial(arguments: &[String]) -> Option<Command>
    ensures { result ≡ trial_of (word_bytes arguments.now) }
{
    match arguments {
        [] => None,
        [_] => None,
        [number, units] => trial_with(unsigned(number.as_bytes()), unsigned(units.as_bytes())),
        [_, _, _, ..] => None,
    }
}

/// The trial with these numbers, where there are from 1 to `MOST_UNITS` units.
fn trial_with(number: Option<u64>, units: Option<u64>) -> Option<Command>
    ensures { result ≡ trial_with number units }
{
    match number {
        None => None,
        Some(number) => match units {
            None => None,
            Some(units) => {
                if 1 <= units && units <= MOST_UNITS as u64 {
                    Some(Command::Trial(number, units as usize))
                } else {
                    None
                }
            }
        },
    }
}

/// The number of steps that a word gives.
fn step_count(word: &[u8]) -> Option<u64>
    ensures { result ≡ step_count word.now }
{
    within(unsigned(word))
}

/// The number, where it is at most `MOST_STEPS`.
fn within(number: Option<u64>) -> Option<u64>
    ensures { result ≡ at_most most_steps number }
{
    match number {
        None => None,
        Some(steps) => {
            if steps <= MOST_STEPS {
                Some(steps)
            } else {
                None
            }
        }
    }
}

/// Whether each of the words is an input of a run.
fn are_numbers(words: &[String]) -> bool
    ensures { result ≡ list_all is_input (word_bytes words.now) }
{
    for word in words {
        if signed(word.as_bytes()).is_none() {
            return false;
        }
    }
    true
}
