// Programs with self tail calls as loops.
ghost use Rattle.std.specs.Prelude.{◌<◌, IfOk, length};
ghost use Rattle.program_pass.specs.PassPrograms.{AllPassed, IsOnly, IsPassedProgram, KeepsRuns, PassedAt};
ghost use Rattle.tail_loop.specs.Tails.{Looped, Tailed};

use crate::tails::tail;
use mir_base::{Memory, Program, Unit as MirUnit};
use program_pass::{laid_out, lowered_clean};
use std::alloc::Global;

/// The program whose units are those of this one with self tail calls as loops: each unit is lowered, cleaned, put
/// through `tail` with its own number, cleaned and laid out; the globals stay. It is the same, evaluates no more
/// operators, and never has more frames. It fails only with `Memory`.
pub fn tail_program(alloc: Global, program: &Program) -> Result<Program, Memory>
    ensures tailed { IfOk result (IsPassedProgram Tailed program.now) }
    ensures only { IfOk result (IsOnly (IsPassedProgram Tailed program.now)) }
    ensures keeps { IfOk result (KeepsRuns program.now) }
{
    let units = tailed_units(alloc, program)?;
    program.fits_together();
    let target = program.with_units(units)?;
    Ok(target)
}

/// The units with self tail calls as loops.
fn tailed_units(alloc: Global, program: &Program) -> Result<Vec<MirUnit>, Memory>
    ensures { IfOk result (λ units. AllPassed Tailed Looped program.now.units units.items) }
{
    let mut units = Vec::new(alloc);
    for number in 0..program.units.items().len() {
        units.push(tailed_unit(alloc, program, number)?)?;
    }
    Ok(units)
}

/// The unit of this number with self tail calls as loops.
fn tailed_unit(alloc: Global, program: &Program, number: usize) -> Result<MirUnit, Memory>
    requires { number < length program.now.units }
    ensures { IfOk result (PassedAt Tailed Looped program.now.units number) }
{
    program.fits_together();
    let front = lowered_clean(alloc, program.unit(number))?;
    let tailed = tail(alloc, &front.cleaned, number)?;
    let target = laid_out(alloc, &tailed)?;
    Ok(target)
}
