// From the units of a program to its trail, for each command alike.
ghost use Rattle.std.specs.Prelude.{◌≡◌, IfOk};
ghost use Rattle.std.specs.List.{AllZip};
ghost use Rattle.mir_base.specs.Shapes.{IsProgram};
ghost use Rattle.mir_opt.specs.Made.{AllLaidOut, AllLayDivisions, AllMade, IsKept, ProgramMade};
ghost use Rattle.mir_opt.specs.Stages.{AllKeep, AreLaid, KeepsProgram};

use crate::steps::UnitSteps;
use flow_graph::layout;
use mir_base::{Items, Memory, Program, Unit as MirUnit};
use mir_sim::lift;
use std::alloc::Global;

/// What a command made of a program.
#[derive(Drop)]
pub(crate) struct ProgramSteps<T> {
    pub(crate) source: Program,
    pub(crate) units: Items<T>,
    pub(crate) target: Program,
}

/// Makes the steps of each unit, and the program of the layouts of their graphs at the last stage.
pub(crate) fn program_steps<T: UnitSteps>(
    alloc: Global,
    program: &Program,
    last: &T::Stage,
) -> Result<ProgramSteps<T::Unit>, Memory>
    ensures { IfOk result (ProgramMade T.graph_at last.now T.linked T.best T.within program.now) }
{
    let source = program.clone()?;
    let units = all_steps::<T>(alloc, program)?;
    let target = program_at::<T>(alloc, program, units.items(), last)?;
    Ok(ProgramSteps {
        source,
        units,
        target,
    })
}

/// The steps of each unit, by its number.
fn all_steps<T: UnitSteps>(alloc: Global, program: &Program) -> Result<Items<T::Unit>, Memory>
    ensures { IfOk result (AllMade T.graph_at T.linked T.best T.within program.now.units) }
{
    let mut units = Vec::new(alloc);
    for number in 0..program.units.items().len() {
        units.push(T::make(alloc, program.unit(number))?)?;
    }
    Ok(Items::of(units))
}

/// The program whose units are the layouts of the graphs at a stage. It is the same as the source, unit by unit,
/// evaluates no more operators, never has more frames, and calls no units but those that the source calls. It fails only
/// with `Memory`.
pub(crate) fn program_at<T: UnitSteps>(
    alloc: Global,
    source: &Program,
    units: &[T::Unit],
    stage: &T::Stage,
) -> Result<Program, Memory>
    requires { AllKeep T.graph_at source.now.units units.now }
    ensures laid { IfOk result (λ program. AreLaid T.graph_at stage.now units.now program.units) }
    ensures globals { IfOk result (λ program. program.globals ≡ source.now.globals) }
    ensures divides { IfOk result (λ program.
        AllLayDivisions T.graph_at stage.now units.now program.units) }
    ensures keeps { IfOk result (KeepsProgram source.now) }
{
    let targets = layouts::<T>(alloc, units, stage)?;
    let program = program_of_units(source, targets)?;
    lift(source, &program);
    Ok(program)
}

/// The layouts of the graphs at a stage.
fn layouts<T: UnitSteps>(
    alloc: Global,
    units: &[T::Unit],
    stage: &T::Stage,
) -> Result<Vec<MirUnit>, Memory>
    ensures { IfOk result (λ targets. AllLaidOut T.graph_at stage.now units.now targets.items) }
{
    let mut targets = Vec::new(alloc);
    for unit in units {
        targets.push(layout(alloc, T::graph_of(unit, stage))?)?;
    }
    Ok(targets)
}

/// The program of these units, which keep those of a program, and of its globals. It fails only with `Memory`.
fn program_of_units(source: &Program, targets: Vec<MirUnit>) -> Result<Program, Memory>
    requires { AllZip IsKept source.now.units targets.items }
    ensures is { IfOk result (λ program. program
        ≡ record { globals = source.now.globals; units = targets.items }) }
    ensures fits { IsProgram source.now.globals source.now.units }
{
    source.fits_together();
    let program = source.with_units(targets)?;
    Ok(program)
}
