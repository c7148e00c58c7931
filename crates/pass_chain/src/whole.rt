// The passes over whole programs, each said in one.
ghost use Rattle.std.specs.Prelude.{IfOk};
ghost use Rattle.program_pass.specs.PassPrograms.{IsPassedProgram, Rewrites};
ghost use Rattle.called_units.specs.CalledUnits.{HasCalledUnits};
ghost use Rattle.constant_args.specs.ConstantArguments.{HasConstantArguments};
ghost use Rattle.program_bounds.specs.Programs.{IsBoundedProgram};
ghost use Rattle.program_wanted.specs.WantedPrograms.{IsWantedProgram};
ghost use Rattle.tail_loop.specs.Tails.{Tailed};
ghost use Rattle.pass_chain.specs.Passes.{HasDivisionsMoved, IsMoved, IsOptimised};
ghost use Rattle.unit_join.specs.JoinPrograms.{IsJoinedProgram};

use called_units::called_program;
use constant_args::constant_arguments;
use mir_base::{Memory, Program};
use mir_opt::{MoveTrail, Trail, divisions, motion, optimise};
use program_bounds::bounded_program;
use program_wanted::wanted_program;
use std::alloc::Global;
use tail_loop::tail_program;
use unit_join::join_program;

/// The program with self tail calls as loops.
pub(crate) fn looped(alloc: Global, program: &Program) -> Result<Program, Memory>
    ensures { IfOk result (Rewrites (IsPassedProgram Tailed) program.now) }
{
    let target = tail_program(alloc, program)?;
    Ok(target)
}

/// The program of the units that calls lead to.
pub(crate) fn with_called_units(alloc: Global, program: &Program) -> Result<Program, Memory>
    ensures { IfOk result (Rewrites HasCalledUnits program.now) }
{
    let target = called_program(alloc, program)?;
    Ok(target)
}

/// The program in which no unit computes what no other wants of it.
pub(crate) fn demanded(alloc: Global, program: &Program) -> Result<Program, Memory>
    ensures { IfOk result (Rewrites IsWantedProgram program.now) }
{
    let target = wanted_program(alloc, program)?;
    Ok(target)
}

/// The program in which units know between which numbers lies what others hand over and back.
pub(crate) fn bounded(alloc: Global, program: &Program) -> Result<Program, Memory>
    ensures { IfOk result (Rewrites IsBoundedProgram program.now) }
{
    let target = bounded_program(alloc, program)?;
    Ok(target)
}

/// The program with its leaves joined into their callers.
pub(crate) fn joined(alloc: Global, program: &Program) -> Result<Program, Memory>
    ensures { IfOk result (Rewrites IsJoinedProgram program.now) }
{
    let target = join_program(alloc, program)?;
    Ok(target)
}

/// The program in which a parameter that each call gives the same constant begins with it.
pub(crate) fn with_constant_arguments(alloc: Global, program: &Program) -> Result<Program, Memory>
    ensures { IfOk result (Rewrites HasConstantArguments program.now) }
{
    let target = constant_arguments(alloc, program)?;
    Ok(target)
}

/// The target of all passes of `optimise`.
pub(crate) fn optimised(alloc: Global, program: &Program) -> Result<Program, Memory>
    ensures { IfOk result (Rewrites IsOptimised program.now) }
{
    let trail = optimise(alloc, program)?;
    let Trail { target, .. } = trail;
    Ok(target)
}

/// The target of code motion alone.
pub(crate) fn moved(alloc: Global, program: &Program) -> Result<Program, Memory>
    ensures { IfOk result (Rewrites IsMoved program.now) }
{
    let trail = motion(alloc, program)?;
    let MoveTrail { target, .. } = trail;
    Ok(target)
}

/// The target of the motion of divisions alone.
pub(crate) fn divided(alloc: Global, program: &Program) -> Result<Program, Memory>
    ensures { IfOk result (Rewrites HasDivisionsMoved program.now) }
{
    let trail = divisions(alloc, program)?;
    let MoveTrail { target, .. } = trail;
    Ok(target)
}
