// What comes before code motion.
ghost use Rattle.std.specs.Prelude.{IfOk};
ghost use Rattle.flow_graph.specs.Lowered.{CanLower};
ghost use Rattle.mir_opt.specs.Made.{FrontMade, LoweredMade, ValuesMade};

use cond_const::fold;
use copy_flow::copies;
use flow_graph::{Graph, lower};
use jump_clean::clean;
use mir_base::{Memory, Unit as MirUnit};
use std::alloc::Global;
use value_number::number;

/// Makes the graphs of a unit up to code motion: lowered, with clean jumps, folded, numbered, with copies replaced. It
/// fails only with `Memory`.
pub(crate) fn make_front(alloc: Global, source: &MirUnit) -> Result<FrontGraphs, Memory>
    requires { CanLower source.now.shared source.now.body }
    ensures { IfOk result (FrontMade source.now) }
{
    let start = lower_clean(alloc, source)?;
    let values = make_values(alloc, &start.cleaned)?;
    Ok(FrontGraphs { start, values })
}

/// Makes the graph of a unit and cleans it. It fails only with `Memory`.
pub(crate) fn lower_clean(alloc: Global, source: &MirUnit) -> Result<Lowered, Memory>
    requires { CanLower source.now.shared source.now.body }
    ensures { IfOk result (LoweredMade source.now) }
{
    let lowered = lower(alloc, source)?;
    let cleaned = clean(alloc, &lowered)?;
    let _nodes = lowered.nodes();
    Ok(Lowered { lowered, cleaned })
}

/// Folds what is known, numbers values, and replaces copies. It fails only with `Memory`.
fn make_values(alloc: Global, cleaned: &Graph) -> Result<Valued, Memory>
    ensures { IfOk result (ValuesMade cleaned.now) }
{
    let folded = fold(alloc, cleaned)?;
    let numbered = number(alloc, &folded)?;
    let copied = copies(alloc, &numbered)?;
    Ok(Valued {
        folded,
        numbered,
        copied,
    })
}

/// The graphs of a unit up to code motion.
#[derive(Drop)]
pub(crate) struct FrontGraphs {
    pub(crate) start: Lowered,
    pub(crate) values: Valued,
}

/// The graph of a unit, and the same with clean jumps.
#[derive(Drop)]
pub(crate) struct Lowered {
    pub(crate) lowered: Graph,
    pub(crate) cleaned: Graph,
}

/// What the passes on values make of a clean graph, one after the other.
#[derive(Drop)]
pub(crate) struct Valued {
    pub(crate) folded: Graph,
    pub(crate) numbered: Graph,
    pub(crate) copied: Graph,
}
