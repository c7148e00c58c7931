// Programs whose units know what is known over all units.
ghost use Rattle.std.specs.Prelude.{◌<◌, ◌≡◌, IfOk, length};
ghost use Rattle.program_pass.specs.Fronts.{AreFronts};
ghost use Rattle.program_pass.specs.PassPrograms.{IsOnly, KeepsRuns};
ghost use Rattle.program_bounds.specs.Programs.{BoundedUnit, BoundedUnits, IsBoundedProgram};
ghost use Rattle.program_bounds.specs.Tables.{AreFresh, facts_of};

use crate::known::{Tables, around, least_facts};
use cond_flow::rewritten_within;
use flow_graph::Graph;
use mir_base::{Memory, Program, Unit as MirUnit};
use program_pass::{graphs_of, laid_out};
use std::alloc::Global;

/// The program whose units are those of this one, each lowered, cleaned, rewritten by bounds, cleaned and laid out; the
/// globals stay. Of an argument, and of a global where a unit is entered, is known what all calls of the unit hand over
/// to which a run may come; of a result, and of a global behind a call, what all returns of the called unit hand back;
/// where the program begins each global is 0, and its inputs may be anything. These are the surest such facts.
///
/// It is the same, evaluates no more operators, and never has more frames. It fails only with `Memory`.
pub fn bounded_program(alloc: Global, program: &Program) -> Result<Program, Memory>
    ensures bounded { IfOk result (IsBoundedProgram program.now) }
    ensures only { IfOk result (IsOnly (IsBoundedProgram program.now)) }
    ensures keeps { IfOk result (KeepsRuns program.now) }
{
    let graphs = graphs_of(alloc, program)?;
    program.fits_together();
    let tables = least_facts(alloc, &graphs)?;
    let units = bounded_units(alloc, program, &graphs, &tables)?;
    let target = program.with_units(units)?;
    Ok(target)
}

/// The units, each rewritten by what is known around it.
fn bounded_units(
    alloc: Global,
    program: &Program,
    graphs: &Vec<Graph>,
    tables: &Tables,
) -> Result<Vec<MirUnit>, Memory>
    requires fronts { AreFronts program.now.units graphs.now.items }
    requires rows { length (facts_of tables.now).entries ≡ length program.now.units }
    requires fresh { AreFresh graphs.now.items tables.now }
    ensures { IfOk result (λ units.
        BoundedUnits (facts_of tables.now) program.now.units units.items) }
{
    let mut units = Vec::new(alloc);
    for number in 0..program.units.items().len() {
        units.push(bounded_unit(alloc, program, graphs, tables, number)?)?;
    }
    Ok(units)
}

/// The unit of this number: by the graph that was made of it when it was served last, if it is not stale.
fn bounded_unit(
    alloc: Global,
    program: &Program,
    graphs: &Vec<Graph>,
    tables: &Tables,
    number: usize,
) -> Result<MirUnit, Memory>
    requires fronts { AreFronts program.now.units graphs.now.items }
    requires rows { length (facts_of tables.now).entries ≡ length program.now.units }
    requires fresh { AreFresh graphs.now.items tables.now }
    requires number { number < length program.now.units }
    ensures { IfOk result (BoundedUnit (facts_of tables.now) program.now.units number) }
{
    if tables.stale[number] {
        let target = made_unit(alloc, program, graphs, tables, number)?;
        return Ok(target);
    }
    match &tables.made[number] {
        Some(bounded) => {
            let target = laid_out(alloc, bounded)?;
            Ok(target)
        }
        None => {
            let target = made_unit(alloc, program, graphs, tables, number)?;
            Ok(target)
        }
    }
}

/// The same, made anew.
fn made_unit(
    alloc: Global,
    program: &Program,
    graphs: &Vec<Graph>,
    tables: &Tables,
    number: usize,
) -> Result<MirUnit, Memory>
    requires fronts { AreFronts program.now.units graphs.now.items }
    requires rows { length (facts_of tables.now).entries ≡ length program.now.units }
    requires number { number < length program.now.units }
    ensures { IfOk result (BoundedUnit (facts_of tables.now) program.now.units number) }
{
    let graph = &graphs[number];
    let outside = around(tables, number);
    let bounded = rewritten_within(alloc, graph, &outside)?;
    let target = laid_out(alloc, &bounded)?;
    Ok(target)
}
