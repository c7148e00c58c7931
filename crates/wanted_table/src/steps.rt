// The graphs of a unit on its way through the pass. Each function fails only with `Memory`.
ghost use Rattle.std.specs.Prelude.{◌<◌, IfOk, length};
ghost use Rattle.mir_base.specs.Appending.{AppendsOnOk};
ghost use Rattle.program_pass.specs.Steps.{AreStepsAt};
ghost use Rattle.table_text.specs.Lines.{names_of_units};
ghost use Rattle.wanted_table.specs.Demanding.{MakesAsked};
ghost use Rattle.wanted_table.specs.Narrowings.{MakesNarrowed, text_before, text_begun, text_behind};

use mir_base::{Memory, Program, Unit as MirUnit};
use program_pass::{PassSteps, lowered_clean, swept_steps};
use std::alloc::Global;
use table_text::{put_stage, put_unit};
use wanted_bits::{Around, narrow, narrow_in};

/// The graphs of the unit of this number on its way through the pass.
pub(crate) fn wanted_steps(
    alloc: Global,
    program: &Program,
    number: usize,
) -> Result<PassSteps, Memory>
    requires { number < length program.now.units }
    ensures { IfOk result (AreStepsAt MakesNarrowed program.now.units number) }
{
    program.fits_together();
    let front = lowered_clean(alloc, program.unit(number))?;
    let narrowed = narrow(alloc, &front.cleaned)?;
    let steps = swept_steps(alloc, front, narrowed)?;
    Ok(steps)
}

/// The same of one that is narrowed to what is asked for around it.
pub(crate) fn demanded_steps(
    alloc: Global,
    program: &Program,
    number: usize,
    around: &Around<'_>,
) -> Result<PassSteps, Memory>
    requires { number < length program.now.units }
    ensures { IfOk result (AreStepsAt (MakesAsked around.now) program.now.units number) }
{
    program.fits_together();
    let front = lowered_clean(alloc, program.unit(number))?;
    let narrowed = narrow_in(alloc, &front.cleaned, around)?;
    let steps = swept_steps(alloc, front, narrowed)?;
    Ok(steps)
}

/// Appends the name of a unit and its first two graphs, among the units of its program.
pub(crate) fn put_before(
    text: &mut Vec<u8>,
    units: &[MirUnit],
    steps: &PassSteps,
) -> Result<(), Memory>
    ensures { AppendsOnOk result text.old text.new
        (text_before (names_of_units units.now) steps.now) }
{
    put_start(text, units, steps)?;
    text.extend_from_slice(b"pass clean\n")?;
    put_stage(text, units, b"clean", &steps.cleaned)
}

/// Appends the name of a unit and its first graph.
fn put_start(text: &mut Vec<u8>, units: &[MirUnit], steps: &PassSteps) -> Result<(), Memory>
    ensures { AppendsOnOk result text.old text.new
        (text_begun (names_of_units units.now) steps.now) }
{
    put_unit(text, steps.lowered.name())?;
    put_stage(text, units, b"lower", &steps.lowered)
}

/// Appends the last two graphs of a unit, of which the first gets this name.
pub(crate) fn put_behind(
    text: &mut Vec<u8>,
    units: &[MirUnit],
    label: &[u8],
    steps: &PassSteps,
) -> Result<(), Memory>
    ensures { AppendsOnOk result text.old text.new
        (text_behind (names_of_units units.now) label.now steps.now) }
{
    put_stage(text, units, label, &steps.passed)?;
    text.extend_from_slice(b"pass clean\n")?;
    put_stage(text, units, b"result", &steps.swept)
}
