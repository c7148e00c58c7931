// Programs in which no unit computes what no other needs of it.
ghost use Rattle.std.specs.Prelude.{◌<◌, ◌≡◌, IfOk, length};
ghost use Rattle.mir_base.specs.Shapes.{IsProgram};
ghost use Rattle.program_pass.specs.Fronts.{AreFronts};
ghost use Rattle.program_pass.specs.PassPrograms.{IsOnly, KeepsRuns};
ghost use Rattle.program_wanted.specs.Demands.{AreLeastDemands};
ghost use Rattle.program_wanted.specs.ProgramRemoves.{ProgramRemovesMost};
ghost use Rattle.program_wanted.specs.ProgramRuns.{ProgramRunsAgree};
ghost use Rattle.program_wanted.specs.UnitPaths.{ProgramPathsKept};
ghost use Rattle.program_wanted.specs.WantedPrograms.{AreProgramDemands, IsWantedProgram, WantedUnit, WantedUnits};
ghost use Rattle.program_wanted.specs.Tables.{demands_of};

use crate::demands::{Tables, around, least_demands};
use flow_graph::Graph;
use mir_base::{Memory, Program, Unit as MirUnit};
use program_pass::{graphs_of, laid_out};
use std::alloc::Global;
use wanted_bits::narrow_in;

/// The program whose units are those of this one, each lowered, cleaned, narrowed to what is asked for around it, cleaned
/// and laid out; the globals stay. Of an argument so many bits are asked for as the called unit wants where it is entered,
/// of a global that a call hands over too; of a result, and of a global that a return hands back, the most that any
/// caller wants behind its call; and all 64 bits of the result of the first unit. These are the least such numbers.
///
/// It is the same, evaluates no more operators, and never has more frames. It fails only with `Memory`.
pub fn wanted_program(alloc: Global, program: &Program) -> Result<Program, Memory>
    ensures wanted { IfOk result (IsWantedProgram program.now) }
    ensures only { IfOk result (IsOnly (IsWantedProgram program.now)) }
    ensures keeps { IfOk result (KeepsRuns program.now) }

    // no removal of assignments over all units that keeps what is wanted, whatever is asked for around them and taken
    // for wanted, takes one that stays here
    ensures most { IfOk result (ProgramRemovesMost program.now) }

    // along each run, in each frame, each variable agrees with what it was in the bits that are wanted
    ensures agrees { IfOk result (ProgramRunsAgree program.now) }

    // on no path through a unit are more operators evaluated
    ensures paths { IfOk result (ProgramPathsKept program.now) }
{
    let graphs = graphs_of(alloc, program)?;
    program.fits_together();
    let tables = least_demands(alloc, &graphs)?;
    let units = narrowed_units(alloc, program, &graphs, &tables)?;
    let target = program.with_units(units)?;
    Ok(target)
}

/// The least demands of the units of a program, as `wanted_program` has them: for each unit how many bits are asked for
/// of each global and each argument where it is entered, and of each global and of the result where it returns. It
/// fails only with `Memory`.
pub fn program_demands(alloc: Global, program: &Program) -> Result<Tables, Memory>
    ensures { IfOk result (λ tables. AreProgramDemands program.now (demands_of tables)) }
{
    let graphs = graphs_of(alloc, program)?;
    program.fits_together();
    let tables = least_demands(alloc, &graphs)?;
    Ok(tables)
}

/// The units, narrowed to what is asked for around them.
fn narrowed_units(
    alloc: Global,
    program: &Program,
    graphs: &Vec<Graph>,
    tables: &Tables,
) -> Result<Vec<MirUnit>, Memory>
    requires fronts { AreFronts program.now.units graphs.now.items }
    requires rows { length tables.now.backs.items ≡ length program.now.units }
    ensures { IfOk result (λ units.
        WantedUnits (demands_of tables.now) program.now.units units.items) }
{
    let mut units = Vec::new(alloc);
    for number in 0..program.units.items().len() {
        units.push(narrowed_unit(alloc, program, graphs, tables, number)?)?;
    }
    Ok(units)
}

/// The unit of this number, narrowed to what is asked for around it.
fn narrowed_unit(
    alloc: Global,
    program: &Program,
    graphs: &Vec<Graph>,
    tables: &Tables,
    number: usize,
) -> Result<MirUnit, Memory>
    requires fronts { AreFronts program.now.units graphs.now.items }
    requires rows { length tables.now.backs.items ≡ length program.now.units }
    requires number { number < length program.now.units }
    ensures { IfOk result (WantedUnit (demands_of tables.now) program.now.units number) }
{
    let graph = &graphs[number];
    let around = around(tables, number);
    let narrowed = narrow_in(alloc, graph, &around)?;
    let target = laid_out(alloc, &narrowed)?;
    Ok(target)
}
