// Units as graphs, and graphs as units.
ghost use Rattle.std.specs.Prelude.{IfOk};
ghost use Rattle.flow_graph.specs.Lowered.{CanLower};
ghost use Rattle.program_pass.specs.Fronts.{AreFronts};
ghost use Rattle.program_pass.specs.PassPrograms.{CleanedLaid, LoweredClean};

use flow_graph::{Graph, layout, lower};
use jump_clean::{clean, into_clean};
use mir_base::{Memory, Program, Unit as MirUnit};
use std::alloc::Global;

/// The graph of a unit, and the same with clean jumps.
#[derive(Drop)]
pub struct Front {
    /// The graph.
    pub lowered: Graph,
    /// The same with clean jumps.
    pub cleaned: Graph,
}

/// The graph of a unit, and the same with clean jumps. It fails only with `Memory`.
pub fn lowered_clean(alloc: Global, unit: &MirUnit) -> Result<Front, Memory>
    requires { CanLower unit.now.shared unit.now.body }
    ensures { IfOk result (λ front. LoweredClean unit.now front.lowered front.cleaned) }
{
    let lowered = lower(alloc, unit)?;
    let cleaned = clean(alloc, &lowered)?;
    let _lowered = lowered.nodes();
    let _cleaned = cleaned.nodes();
    let _shared = cleaned.shared();
    Ok(Front { lowered, cleaned })
}

/// The graphs of the units of a program, by number, each with clean jumps. It fails only with `Memory`.
pub fn graphs_of(alloc: Global, program: &Program) -> Result<Vec<Graph>, Memory>
    ensures { IfOk result (λ graphs. AreFronts program.now.units graphs.items) }
{
    let mut graphs = Vec::new(alloc);
    for number in 0..program.units.items().len() {
        let front = lowered_clean(alloc, program.unit(number))?;
        graphs.push(front.cleaned)?;
    }
    Ok(graphs)
}

/// The graph with clean jumps, laid out. It fails only with `Memory`.
pub fn laid_out(alloc: Global, graph: &Graph) -> Result<MirUnit, Memory>
    ensures { IfOk result (CleanedLaid graph.now) }
{
    let swept = clean(alloc, graph)?;
    let unit = layout(alloc, &swept)?;
    let _nodes = graph.nodes();
    Ok(unit)
}

/// The same of a graph that is let go, so that its nodes do not stand in memory twice. It fails only with `Memory`.
pub fn into_laid_out(alloc: Global, graph: Graph) -> Result<MirUnit, Memory>
    ensures { IfOk result (CleanedLaid graph) }
{
    let _nodes = graph.nodes();
    let swept = into_clean(alloc, graph)?;
    let unit = layout(alloc, &swept)?;
    Ok(unit)
}
