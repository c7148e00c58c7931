// The steps of a unit whose self tail calls become loops, for those who show them.
ghost use Rattle.std.specs.Prelude.{◌<◌, IfOk, length};
ghost use Rattle.program_pass.specs.Steps.{AreStepsAt};
ghost use Rattle.tail_loop.specs.Tails.{Tailed};

use crate::tails::tail;
use mir_base::{Memory, Program};
use program_pass::{PassSteps, lowered_clean, swept_steps};
use std::alloc::Global;

/// The graphs of the unit of this number on its way to loops. It fails only with `Memory`.
pub fn tail_steps(alloc: Global, program: &Program, number: usize) -> Result<PassSteps, Memory>
    requires { number < length program.now.units }
    ensures { IfOk result (AreStepsAt Tailed program.now.units number) }
{
    program.fits_together();
    let front = lowered_clean(alloc, program.unit(number))?;
    let tailed = tail(alloc, &front.cleaned, number)?;
    let steps = swept_steps(alloc, front, tailed)?;
    Ok(steps)
}
