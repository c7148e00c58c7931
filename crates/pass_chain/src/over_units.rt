// From a pass on graphs to a pass over programs.
ghost use Rattle.std.specs.Prelude.{◌<◌, length, IfOk};
ghost use Rattle.program_pass.specs.PassPrograms.{Rewrites};
ghost use Rattle.pass_chain.specs.Passes.{PassesGraphs};
ghost use Rattle.pass_chain.specs.GraphPasses.{AllMadeBy, MadeAt};

use crate::graph_passes::GraphPass;
use mir_base::{Memory, Program, Unit as MirUnit};
use program_pass::lowered_clean;
use std::alloc::Global;

/// The program whose units are those of this one through a pass on graphs: each is lowered, cleaned, passed, cleaned
/// and laid out; the globals stay. It fails only with `Memory`.
pub(crate) fn program_through<P: GraphPass>(
    alloc: Global,
    program: &Program,
) -> Result<Program, Memory>
    ensures { IfOk result (Rewrites (PassesGraphs P.exact) program.now) }
{
    let units = units_through::<P>(alloc, program)?;
    program.fits_together();
    let target = program.with_units(units)?;
    Ok(target)
}

/// The units through the pass, by their numbers.
fn units_through<P: GraphPass>(alloc: Global, program: &Program) -> Result<Vec<MirUnit>, Memory>
    ensures { IfOk result (λ units. AllMadeBy P.exact program.now.units units.items) }
{
    let mut units = Vec::new(alloc);
    for number in 0..program.units.items().len() {
        units.push(unit_through::<P>(alloc, program, number)?)?;
    }
    Ok(units)
}

/// The unit of this number through the pass.
fn unit_through<P: GraphPass>(
    alloc: Global,
    program: &Program,
    number: usize,
) -> Result<MirUnit, Memory>
    requires { number < length program.now.units }
    ensures { IfOk result (MadeAt P.exact program.now.units number) }
{
    let front = lowered_clean(alloc, program.unit(number))?;
    let unit = P::unit_of(alloc, &front.cleaned)?;
    Ok(unit)
}
