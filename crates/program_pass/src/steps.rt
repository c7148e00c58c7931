// The graphs of a unit on its way through a pass, for those who show them.
ghost use Rattle.std.specs.Prelude.{IfOk};
ghost use Rattle.program_pass.specs.Steps.{AreSweptSteps};

use crate::units::Front;
use flow_graph::Graph;
use jump_clean::clean;
use mir_base::Memory;
use std::alloc::Global;

/// The graphs of a unit on its way through a pass, but for the unit that is laid out of the last one.
#[derive(Drop)]
pub struct PassSteps {
    /// The graph of the unit.
    pub lowered: Graph,
    /// The same with clean jumps.
    pub cleaned: Graph,
    /// What the pass made of it.
    pub passed: Graph,
    /// The graph that the pass made, with clean jumps.
    pub swept: Graph,
}

/// The steps of a unit with these first graphs, of which a pass made this one. It fails only with `Memory`.
pub fn swept_steps(alloc: Global, front: Front, passed: Graph) -> Result<PassSteps, Memory>
    ensures { IfOk result (AreSweptSteps front passed) }
{
    let swept = clean(alloc, &passed)?;
    Ok(PassSteps {
        lowered: front.lowered,
        cleaned: front.cleaned,
        passed,
        swept,
    })
}
