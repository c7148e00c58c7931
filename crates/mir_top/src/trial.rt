// The summary of a trial.
ghost use Rattle.std.specs.Prelude.{◌≡◌, ◌≤◌, length, IfOk};
ghost use Rattle.mir_base.specs.Appending.{AppendsOnOk};
ghost use Rattle.mir_base.specs.Limits.{most_units};
ghost use Rattle.mir_base.specs.Runs.{inputs_of};
ghost use Rattle.mir_interp.specs.Reports.{report_of};
ghost use Rattle.mir_opt.specs.Stages.{KeepsProgram};
ghost use Rattle.mir_sim.specs.Calls.{HasFewFrames};
ghost use Rattle.mir_top.specs.Due.{CanBeTried};
ghost use Rattle.mir_top.specs.Outputs.{IsSummary, count_line, instructions_in, reported, summary_text, trail_summary, trial_inputs, trial_run};

use crate::making::trail_of;
use itoa::Buffer;
use mir_base::{MOST_STEPS, Memory, Program};
use mir_interp::{Report, RunFault, run};
use mir_opt::Trail;
use mir_sim::both_have_few_frames;
use std::alloc::{AllocError, Global};

/// The summary of the program and of what the passes make of it: how many instructions both have, what the trial's runs
/// of both evaluate, and how many numbers that of the program prints. It fails only with `Memory`.
pub(crate) fn trial(alloc: Global, program: &Program) -> Result<Vec<u8>, Memory>
    requires { CanBeTried program.now }
    ensures { IfOk result (λ output. IsSummary program.now output.items) }
{
    let trail = trail_of(alloc, program)?;
    let output = summary_of(alloc, &trail)?;
    Ok(output)
}

/// The summary of a trail. Neither run has more frames than the program has units, since each unit calls units of
/// higher numbers alone, and the target's units call no others.
fn summary_of(alloc: Global, trail: &Trail) -> Result<Vec<u8>, Memory>
    requires source { CanBeTried trail.now.source }
    requires keeps { KeepsProgram trail.now.source trail.now.target }
    ensures { IfOk result (λ output. output.items ≡ trail_summary trail.now) }
{
    both_have_few_frames(&trail.source, &trail.target);
    let before = trial_run(alloc, &trail.source)?;
    let after = trial_run(alloc, &trail.target)?;
    let output = summary(alloc, trail, &before, &after)?;
    Ok(output)
}

/// The report of the trial's run of the program.
fn trial_run(alloc: Global, program: &Program) -> Result<Report, Memory>
    requires inputs { inputs_of program.now ≡ 2 }
    requires frames { HasFewFrames program.now }
    requires units { length program.now.units ≤ most_units }
    ensures { IfOk result (λ report. report ≡ report_of (trial_run program.now)) }
{
    let report = run_for(alloc, program, MOST_STEPS)?;
    Ok(report)
}

/// The report of the run of so many steps with the inputs of a trial. It has as many inputs as the program takes, and
/// few frames, so it fails only with `Memory`.
fn run_for(alloc: Global, program: &Program, steps: u64) -> Result<Report, Memory>
    requires inputs { inputs_of program.now ≡ 2 }
    requires frames { HasFewFrames program.now }
    requires units { length program.now.units ≤ most_units }
    ensures { IfOk result (λ report. report ≡ reported program.now trial_inputs steps) }
{
    match run(alloc, program, &[3, 5], steps) {
        Ok(report) => Ok(report),
        Err(RunFault::WrongInputs { wanted: _ }) => unreachable!(),
        Err(RunFault::Deep) => unreachable!(),
        Err(RunFault::Memory(refusal)) => Err(refusal),
    }
}

/// The text of the summary, by the reports of both runs.
fn summary(alloc: Global, trail: &Trail, before: &Report, after: &Report) -> Result<Vec<u8>, Memory>
    ensures { IfOk result (λ text. text.items
        ≡ summary_text trail.now.source trail.now.target before.now after.now) }
{
    let mut text = Vec::new(alloc);
    put_count(
        &mut text,
        b"source instructions ",
        instructions(&trail.source)?,
    )?;
    put_count(
        &mut text,
        b"result instructions ",
        instructions(&trail.target)?,
    )?;
    put_count(&mut text, b"source evals ", before.evals)?;
    put_count(&mut text, b"result evals ", after.evals)?;
    put_count(&mut text, b"printed ", before.lines.items().len() as u64)?;
    Ok(text)
}

/// How many instructions the bodies have in all. Where the sum passes the greatest `u64`, it fails
/// with `Memory`.
fn instructions(program: &Program) -> Result<u64, Memory>
    ensures { IfOk result (λ count. count ≡ instructions_in program.now) }
{
    let mut count = 0u64;
    for unit in program.units.items() {
        let more = unit.body.items().len() as u64;
        count = count.checked_add(more).ok_or(AllocError)?;
    }
    Ok(count)
}

/// Appends the number behind a text, on a line of its own.
fn put_count(text: &mut Vec<u8>, what: &[u8], count: u64) -> Result<(), Memory>
    ensures { AppendsOnOk result text.old text.new (count_line what.now count) }
{
    let mut buffer = Buffer::new();
    text.extend_from_slice(what)?;
    text.extend_from_slice(buffer.format(count).as_bytes())?;
    text.extend_from_slice(b"\n")
}
