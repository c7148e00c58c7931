// What comes after code motion.
ghost use Rattle.std.specs.Prelude.{IfOk};
ghost use Rattle.flow_graph.specs.Edges.{IsSplit};
ghost use Rattle.mir_opt.specs.Made.{BackMade};

use crate::stages::last_round;
use copy_flow::copies;
use flow_graph::Graph;
use jump_clean::clean;
use mir_base::Memory;
use sink_rounds::{Rounds, rounds};
use std::alloc::Global;

/// The graphs of a unit after code motion.
#[derive(Drop)]
pub(crate) struct Back {
    pub(crate) recopied: Graph,
    pub(crate) rounds: Rounds,
    pub(crate) swept: Graph,
}

/// Replaces the copies that code motion left, sinks assignments in rounds, and cleans the graph. It fails only with
/// `Memory`.
pub(crate) fn make_back(alloc: Global, moved: &Graph) -> Result<Back, Memory>
    requires { IsSplit moved.now.nodes }
    ensures { IfOk result (BackMade moved.now) }
{
    let recopied = copies(alloc, moved)?;
    // That it is a graph is what the law on lists of steps asks for.
    let _nodes = recopied.nodes();
    let _shared = recopied.shared();
    let rounds = rounds(alloc, &recopied)?;
    let swept = clean(alloc, last_round(&recopied, rounds.graphs.items()))?;
    Ok(Back {
        recopied,
        rounds,
        swept,
    })
}
