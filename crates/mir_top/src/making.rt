// From a program to the output.
ghost use Rattle.std.specs.Prelude.{◌≡◌, IfOk, IfErr, Ok, Some};
ghost use Rattle.mir_opt.specs.Stages.{AllKeep, KeepsProgram, graph_at};
ghost use Rattle.mir_top.specs.Commands.{command_of, word_bytes};
ghost use Rattle.mir_top.specs.Due.{CanBeTried, Needs};
ghost use Rattle.mir_top.specs.Outputs.{CannotMake, IsMadeAlone, IsMadeBy, IsWantOfMemory, Optimises, TurnsThrough};
ghost use Rattle.mir_top.specs.Texts.{IsWritten};

use crate::command::inputs;
use crate::dividing::best_motion;
use crate::pass_words::passes;
use crate::ranges::text_of_ranges;
use crate::report_text::text_of_report;
use crate::stages::text_of_stages;
use crate::trial::trial;
use crate::{Command, Outcome, best_divisions};
use mir_base::{Memory, Program};
use mir_interp::{RunFault, run};
use mir_opt::{Trail, optimise};
use mir_print::{print, text_is_read_back};
use pass_chain::chain_program;
use program_turns::thorough_program;
use std::alloc::Global;
use tail_loop::tail_program;
use unit_join::join_program;

/// What was made of a program, with the bytes that are to be written.
#[derive(Drop)]
pub(crate) struct Made {
    /// What was made.
    pub(crate) outcome: Outcome,
    /// The bytes that are to be written.
    pub(crate) output: Vec<u8>,
}

/// What the command makes of the program. The words are those of the command, for the inputs of a run and the passes of
/// a chain.
pub(crate) fn make(
    alloc: Global,
    command: Command,
    words: &[String],
    program: &Program,
) -> Result<Made, RunFault>
    requires asked { command_of (word_bytes words.now) ≡ Some command }
    requires needs { Needs command program.now }
    ensures made { IfOk result (IsMadeBy (word_bytes words.now) program.now command) }
    ensures stopped { IfErr result (CannotMake (word_bytes words.now) program.now command) }
{
    match command {
        Command::Optimise => or_stopped(optimised(alloc, program)),
        Command::Stages => or_stopped(shown(alloc, program)),
        Command::Move => or_stopped(moved(alloc, program)),
        Command::Ranges => or_stopped(ranged(alloc, program)),
        Command::Divisions => or_stopped(divided(alloc, program)),
        Command::Tails => or_stopped(tailed(alloc, program)),
        Command::Join => or_stopped(joined(alloc, program)),
        Command::Thorough => or_stopped(turned(alloc, program)),
        Command::Passes => or_stopped(chained(alloc, words, program)),
        Command::Run(steps) => ran(alloc, words, program, steps),
        Command::Trial(_, _) => or_stopped(tried(alloc, program)),
    }
}

/// What was made, where nothing but want of memory could stop it.
fn or_stopped(made: Result<Made, Memory>) -> Result<Made, RunFault>
    ensures made { IfOk result (λ value. made ≡ Ok value) }
    ensures stopped { IfErr result IsWantOfMemory }
{
    match made {
        Ok(made) => Ok(made),
        Err(refusal) => Err(RunFault::Memory(refusal)),
    }
}

/// The canonical text of a program. It carries the theorem that within the limits this is read as the program.
fn text_of(alloc: Global, program: &Program) -> Result<Vec<u8>, Memory>
    ensures { IfOk result (λ text. IsWritten program.now text.items) }
{
    text_is_read_back(program);
    let text = print(alloc, program)?;
    Ok(text)
}

/// What the passes make of the program, with the text of its target.
fn optimised(alloc: Global, program: &Program) -> Result<Made, Memory>
    ensures { IfOk result (IsMadeAlone program.now Command.Optimise) }
{
    let trail = trail_of(alloc, program)?;
    let output = text_of(alloc, &trail.target)?;
    Ok(Made {
        outcome: Outcome::Optimised(trail),
        output,
    })
}

/// What the passes make of the program.
pub(crate) fn trail_of(alloc: Global, program: &Program) -> Result<Trail, Memory>
    ensures source { IfOk result (λ trail. trail.source ≡ program.now) }
    ensures optimises { IfOk result Optimises }
    ensures keeps { IfOk result (λ trail. KeepsProgram program.now trail.target) }
    ensures stages { IfOk result (λ trail. AllKeep graph_at trail.source.units trail.units) }
{
    let trail = optimise(alloc, program)?;
    Ok(trail)
}

/// What the passes make of the program, with the texts of its stages.
fn shown(alloc: Global, source: &Program) -> Result<Made, Memory>
    ensures { IfOk result (IsMadeAlone source.now Command.Stages) }
{
    let trail = trail_of(alloc, source)?;
    let output = text_of_stages(alloc, &trail)?;
    Ok(Made {
        outcome: Outcome::Shown(trail),
        output,
    })
}

/// What code motion alone makes of the program, with the text of its target.
fn moved(alloc: Global, program: &Program) -> Result<Made, Memory>
    ensures { IfOk result (IsMadeAlone program.now Command.Move) }
{
    let trail = best_motion(alloc, program)?;
    let output = text_of(alloc, &trail.target)?;
    Ok(Made {
        outcome: Outcome::Moved(trail),
        output,
    })
}

/// What code motion alone makes of the program, with the text of where its temporaries are held.
fn ranged(alloc: Global, program: &Program) -> Result<Made, Memory>
    ensures { IfOk result (IsMadeAlone program.now Command.Ranges) }
{
    let trail = best_motion(alloc, program)?;
    let output = text_of_ranges(alloc, &trail)?;
    Ok(Made {
        outcome: Outcome::Ranged(trail),
        output,
    })
}

/// What the motion of divisions alone makes of the program, with the text of its target.
fn divided(alloc: Global, program: &Program) -> Result<Made, Memory>
    ensures { IfOk result (IsMadeAlone program.now Command.Divisions) }
{
    let trail = best_divisions(alloc, program)?;
    let output = text_of(alloc, &trail.target)?;
    Ok(Made {
        outcome: Outcome::Divided(trail),
        output,
    })
}

/// The text of a program that was made of another.
fn rewritten(alloc: Global, target: &Program) -> Result<Made, Memory>
    ensures outcome { IfOk result (λ made. made.outcome ≡ Outcome.Rewritten) }
    ensures output { IfOk result (λ made. IsWritten target.now made.output.items) }
{
    let output = text_of(alloc, target)?;
    Ok(Made {
        outcome: Outcome::Rewritten,
        output,
    })
}

/// The text of the program with self tail calls as loops.
fn tailed(alloc: Global, program: &Program) -> Result<Made, Memory>
    ensures { IfOk result (IsMadeAlone program.now Command.Tails) }
{
    let target = tail_program(alloc, program)?;
    let made = rewritten(alloc, &target)?;
    Ok(made)
}

/// The text of the program with its leaves joined into their callers.
fn joined(alloc: Global, program: &Program) -> Result<Made, Memory>
    ensures { IfOk result (IsMadeAlone program.now Command.Join) }
{
    let target = join_program(alloc, program)?;
    let made = rewritten(alloc, &target)?;
    Ok(made)
}

/// The text of what turns of passes make of the program until a turn changes nothing.
fn turned(alloc: Global, program: &Program) -> Result<Made, Memory>
    ensures { IfOk result (IsMadeAlone program.now Command.Thorough) }
{
    let target = after_turns(alloc, program)?;
    let made = rewritten(alloc, &target)?;
    Ok(made)
}

/// What turns of passes make of the program until a turn changes nothing.
fn after_turns(alloc: Global, program: &Program) -> Result<Program, Memory>
    ensures { IfOk result (TurnsThrough program.now) }
{
    let target = thorough_program(alloc, program)?;
    Ok(target)
}

/// The text of what the passes that the words give make of the program one after another.
fn chained(alloc: Global, words: &[String], program: &Program) -> Result<Made, Memory>
    requires { command_of (word_bytes words.now) ≡ Some Command.Passes }
    ensures { IfOk result (IsMadeBy (word_bytes words.now) program.now Command.Passes) }
{
    let passes = passes(alloc, words)?;
    let target = chain_program(alloc, &passes, program)?;
    let made = rewritten(alloc, &target)?;
    Ok(made)
}

/// The report of the run of so many steps with the inputs that the words give.
fn ran(alloc: Global, words: &[String], program: &Program, steps: u64) -> Result<Made, RunFault>
    requires { command_of (word_bytes words.now) ≡ Some (Command.Run steps) }
    ensures made { IfOk result (IsMadeBy (word_bytes words.now) program.now (Command.Run steps)) }
    ensures stopped { IfErr result
        (CannotMake (word_bytes words.now) program.now (Command.Run steps)) }
{
    let inputs = match inputs(alloc, words) {
        Ok(inputs) => inputs,
        Err(refusal) => return Err(RunFault::Memory(refusal)),
    };
    let report = match run(alloc, program, &inputs, steps) {
        Ok(report) => report,
        Err(fault) => return Err(fault),
    };
    match text_of_report(alloc, &report) {
        Ok(output) => Ok(Made {
            outcome: Outcome::Ran(report.finish),
            output,
        }),
        Err(refusal) => Err(RunFault::Memory(refusal)),
    }
}

/// The summary of the trial of the program.
fn tried(alloc: Global, program: &Program) -> Result<Made, Memory>
    requires { CanBeTried program.now }
    ensures { IfOk result (IsMadeAlone program.now (Command.Trial 0 0)) }
{
    let output = trial(alloc, program)?;
    Ok(Made {
        outcome: Outcome::Compared,
        output,
    })
}
