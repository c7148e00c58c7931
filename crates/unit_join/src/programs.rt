// Programs with leaves joined into their callers.
ghost use Rattle.std.specs.Prelude.{◌<◌, IfOk, length};
ghost use Rattle.program_pass.specs.PassPrograms.{IsOnly, KeepsRuns};
ghost use Rattle.unit_join.specs.JoinPrograms.{AreLeavesMade, IsJoinedProgram, JoinedLaid, JoinedUnit, JoinedUnits};
ghost use Rattle.unit_join.specs.Joins.{LeafCallsFit, LeavesShare, NoLeafCalls};

use crate::joins::join;
use crate::leaves::Leaves;
use flow_graph::Graph;
use mir_base::{MOST_INSTS, Memory, Program, Unit as MirUnit};
use program_pass::{laid_out, lowered_clean};
use std::alloc::Global;

/// The program whose units are those of this one with its leaves joined into them: each unit is lowered, cleaned,
/// joined with the leaves of the program, cleaned and laid out; the globals stay. A unit that would then have more than
/// 16,384 instructions, the most that a unit of a text may have, gets no leaf at all, so that its text can be read
/// again. Units that are no longer called stay. The program is the same, evaluates no more operators, and never has
/// more frames. It fails only with `Memory`.
pub fn join_program(alloc: Global, program: &Program) -> Result<Program, Memory>
    ensures joined { IfOk result (IsJoinedProgram program.now) }
    ensures only { IfOk result (IsOnly (IsJoinedProgram program.now)) }
    ensures keeps { IfOk result (KeepsRuns program.now) }
{
    let leaves = Leaves::of(alloc, program)?;
    let units = joined_units(alloc, program, &leaves)?;
    program.fits_together();
    let target = program.with_units(units)?;
    Ok(target)
}

/// The units with leaves joined into them.
fn joined_units(alloc: Global, program: &Program, leaves: &Leaves) -> Result<Vec<MirUnit>, Memory>
    requires { AreLeavesMade program.now.units leaves.now.units }
    ensures { IfOk result (λ units.
        JoinedUnits leaves.now.units program.now.units units.items) }
{
    let mut units = Vec::new(alloc);
    for number in 0..program.units.items().len() {
        units.push(joined_unit(alloc, program, leaves, number)?)?;
    }
    Ok(units)
}

/// The unit of this number with leaves joined into it.
fn joined_unit(
    alloc: Global,
    program: &Program,
    leaves: &Leaves,
    number: usize,
) -> Result<MirUnit, Memory>
    requires leaves { AreLeavesMade program.now.units leaves.now.units }
    requires number { number < length program.now.units }
    ensures { IfOk result (JoinedUnit leaves.now.units program.now.units number) }
{
    program.fits_together();
    let front = lowered_clean(alloc, program.unit(number))?;
    let target = joined_or_left(alloc, &front.cleaned, leaves)?;
    Ok(target)
}

/// The unit of the graph with the leaves that it calls joined into it; where that would be too long, the unit of the
/// graph.
fn joined_or_left(alloc: Global, graph: &Graph, leaves: &Leaves) -> Result<MirUnit, Memory>
    requires fit { LeafCallsFit leaves.now.units graph.now.nodes }
    requires no_calls { NoLeafCalls leaves.now.units }
    requires globals { LeavesShare leaves.now.units graph.now.shared }
    ensures { IfOk result (JoinedLaid leaves.now.units graph.now) }
{
    let joined = join(alloc, graph, leaves)?;
    let unit = laid_out(alloc, &joined)?;
    if unit.insts().len() <= MOST_INSTS {
        return Ok(unit);
    }
    let left = laid_out(alloc, graph)?;
    Ok(left)
}
