// The answers of a problem of paths: solved over blocks, and filled in at their nodes.
ghost use Rattle.std.specs.Prelude.{◌≡◌, ◌+◌, ◌≤◌, IfOk, OnErr, OnOk};
ghost use Rattle.bit_rows.specs.Bits.{AreEquallyLong};
ghost use Rattle.flow_graph.specs.Blocks.{AreBlocksOf};
ghost use Rattle.flow_graph.specs.Edges.{edges_of};
ghost use Rattle.path_laws.specs.Problem.{AreLed, AreSolved, HasBetween, HasGraph, HaveBlockShape, HaveBornShape, IsProblem, born_room, room_along};

use crate::between::{BlockEdges, edges_between};
use crate::bits::{Bits, Seeds, out_of_blocks};
use crate::filling::{fill_all, initial_rows};
use crate::problems::Problem;
use crate::summaries::barred_by_blocks;
use bit_rows::Rows;
use fix_solve::{Steps, Work};
use mir_base::Memory;
use std::alloc::Global;
use std::sync::ledger::Ledger;

/// The row of each node: at bit b, whether the statement of the problem holds there of bit b. The rows have as many
/// bits as the rows of births. Where it fails the counter has not risen.
pub(crate) fn answers<L: Ledger>(
    alloc: Global,
    problem: &Problem<'_>,
    steps: &mut Steps<L>,
) -> Result<Rows, Memory>
    requires edges { problem.now.edges.now ≡ edges_of problem.now.graph.now.nodes }
    requires blocks { AreBlocksOf problem.now.graph.now.nodes problem.now.blocks.now }
    requires born { HaveBornShape problem.now problem.now.born.now }
    requires stop { HaveBornShape problem.now problem.now.stop.now }
    requires bits { AreEquallyLong problem.now.bits problem.now.born.now }
    ensures graph { OnOk result (HasGraph problem.now) }
    ensures shape { IfOk result (HaveBornShape problem.now) }
    ensures answers { IfOk result (AreSolved problem.now) }
    ensures pushes { steps.new ≤ steps.old + born_room problem.now }
    ensures counts { steps.old ≤ steps.new }
    ensures err { OnErr result (steps.new ≡ steps.old) }
{
    let _nodes = problem.graph.nodes();
    let between = edges_between(
        alloc,
        problem.graph,
        problem.edges,
        problem.blocks,
        problem.against,
    )?;
    let mut rows = initial_rows(alloc, problem)?;
    let work = led(alloc, problem, &between, steps)?;
    fill_all(problem, &between.edges, &work, &mut rows);
    Ok(rows)
}

/// From which blocks each bit comes: the least rows over the edges between blocks.
fn led<L: Ledger>(
    alloc: Global,
    problem: &Problem<'_>,
    between: &BlockEdges,
    steps: &mut Steps<L>,
) -> Result<Work<Bits>, Memory>
    requires problem { IsProblem problem.now }
    requires between { HasBetween problem.now between.now }
    ensures shape { IfOk result (HaveBlockShape problem.now) }
    ensures leads { IfOk result (AreLed problem.now between.now.edges.items) }
    ensures pushes { steps.new ≤ steps.old + room_along problem.now between.now }
    ensures counts { steps.old ≤ steps.new }
    ensures err { OnErr result (steps.new ≡ steps.old) }
{
    let stops = barred_by_blocks(alloc, problem)?;
    let count = problem.blocks.len();
    let seeds = Seeds::OfProblem(problem);
    let work = out_of_blocks(alloc, count, between, &seeds, &stops, problem.bits, steps)?;
    Ok(work)
}
