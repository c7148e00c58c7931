// Whole runs, with a bound on their steps.
ghost use Rattle.std.specs.Prelude.{◌≡◌, ◌<◌, length, IfOk};
ghost use Rattle.mir_base.specs.Runs.{first_state, inputs_of};
ghost use Rattle.mir_interp.specs.RunsSoFar.{IsRunSoFar, state_of};
ghost use Rattle.mir_interp.specs.Reports.{IsRunAnswer};

use crate::so_far::RunSoFar;
use crate::stack::Stack;
use crate::{Finish, Report, RunFault};
use mir_base::{Items, Memory, Program};
use std::alloc::Global;

/// Runs the program for so many steps, or to its end if that comes first, and returns the report of the run by the
/// definition. A step is one instruction, or the end of a unit's body.
///
/// Its refusals, in this order: `WrongInputs`, exactly where the number of inputs is not that of the receives of the
/// first unit, which it names; `Deep`, exactly where within the steps the number of frames passes `MOST_FRAMES`; and
/// `Memory`, which may come in place of a report or of `Deep`.
pub fn run(alloc: Global, program: &Program, inputs: &[i64], steps: u64) -> Result<Report, RunFault>
    ensures { IsRunAnswer program.now inputs.now steps result }
{
    let wanted = program.inputs();
    if inputs.len() != wanted {
        return Err(RunFault::WrongInputs { wanted });
    }
    let mut so_far = start(alloc, program, inputs)?;
    for _ in 0..steps {
        match so_far.step(program)? {
            Finish::Running => {}
            Finish::Ended(result) => return Ok(report(so_far, Finish::Ended(result))),
            Finish::Trapped(kind) => return Ok(report(so_far, Finish::Trapped(kind))),
        }
    }
    Ok(report(so_far, Finish::Running))
}

/// The run at its start: a frame of the first unit, whose arguments are the inputs.
fn start(alloc: Global, program: &Program, inputs: &[i64]) -> Result<RunSoFar, Memory>
    requires some_unit { 0 < length program.now.units }
    requires inputs { length inputs.now ≡ inputs_of program.now }
    ensures state { IfOk result (λ so_far.
        state_of so_far Finish.Running ≡
        first_state (length program.now.globals) inputs.now) }
    ensures so_far { IfOk result (λ so_far. IsRunSoFar program.now so_far) }
{
    Ok(RunSoFar {
        printed: Vec::new(alloc),
        stack: Stack::new(alloc, program, inputs)?,
        counted: 0,
        depth: 1,
    })
}

/// The report of the run so far; `finish` says whether it goes on, ended or trapped.
fn report(so_far: RunSoFar, finish: Finish) -> Report
    ensures lines { result.lines ≡ so_far.printed.items }
    ensures finish { result.finish ≡ finish }
    ensures evals { result.evals ≡ so_far.counted }
{
    Report {
        lines: Items::of(so_far.printed),
        finish,
        evals: so_far.counted,
    }
}
