// Programs whose units know the arguments that are always the same constant.
ghost use Rattle.std.specs.Prelude.{◌<◌, IfOk, length};
ghost use Rattle.program_pass.specs.Fronts.{AreFronts};
ghost use Rattle.program_pass.specs.PassPrograms.{IsOnly, KeepsRuns};
ghost use Rattle.constant_args.specs.ConstantArguments.{HasConstantArguments};
ghost use Rattle.constant_args.specs.Gathered.{AreAllConstants, KnowingUnit, KnowingUnits};

use crate::gathering::{NotedCalls, gathered};
use crate::knowing::knowing;
use flow_graph::Graph;
use mir_base::{Memory, Program, Unit as MirUnit};
use program_pass::{graphs_of, laid_out};
use std::alloc::Global;

/// The program whose units are those of this one, each lowered, cleaned, told which of its arguments are always the
/// same constant, cleaned and laid out; the globals stay. Behind Start stand assignments of these constants to the
/// variables that receive the arguments, in order.
///
/// An argument is always a constant where the graphs of all units have a call of the unit that gives it, and each other
/// call gives it too, or is one of the unit by itself that passes the argument on: the operand is the variable that has
/// received it, and no node assigns this variable. No argument of the first unit is, since it is entered from outside.
///
/// It is the same, evaluates no more operators, and never has more frames. It fails only with `Memory`.
pub fn constant_arguments(alloc: Global, program: &Program) -> Result<Program, Memory>
    ensures exact { IfOk result (HasConstantArguments program.now) }
    ensures only { IfOk result (IsOnly (HasConstantArguments program.now)) }
    ensures keeps { IfOk result (KeepsRuns program.now) }
{
    let graphs = graphs_of(alloc, program)?;
    program.fits_together();
    let noted = gathered(alloc, &graphs)?;
    let units = knowing_units(alloc, program, &graphs, &noted)?;
    let target = program.with_units(units)?;
    Ok(target)
}

/// The units, each told what its arguments always are.
fn knowing_units(
    alloc: Global,
    program: &Program,
    graphs: &Vec<Graph>,
    noted: &Vec<NotedCalls>,
) -> Result<Vec<MirUnit>, Memory>
    requires fronts { AreFronts program.now.units graphs.now.items }
    requires constants { AreAllConstants graphs.now.items noted.now.items }
    ensures { IfOk result (λ units. KnowingUnits program.now.units units.items) }
{
    let mut units = Vec::new(alloc);
    for number in 0..program.units.items().len() {
        units.push(knowing_unit(alloc, program, graphs, noted, number)?)?;
    }
    Ok(units)
}

/// The unit of this number, told what its arguments always are.
fn knowing_unit(
    alloc: Global,
    program: &Program,
    graphs: &Vec<Graph>,
    noted: &Vec<NotedCalls>,
    number: usize,
) -> Result<MirUnit, Memory>
    requires fronts { AreFronts program.now.units graphs.now.items }
    requires constants { AreAllConstants graphs.now.items noted.now.items }
    requires number { number < length program.now.units }
    ensures { IfOk result (KnowingUnit program.now.units number) }
{
    let graph = &graphs[number];
    let known = knowing(alloc, graph, noted[number].arguments.as_slice())?;
    let target = laid_out(alloc, &known)?;
    Ok(target)
}
