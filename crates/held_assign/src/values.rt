// What held assignments say of runs.
ghost use Rattle.held_assign.specs.HeldValues.{HeldValuesAgree};

use flow_graph::Graph;

/// Has no effect; carries the theorem that in each run that comes to a node before which `v <- rhs` holds, v has the
/// value of rhs there.
pub fn held_values(graph: &Graph)
    ensures { HeldValuesAgree graph.now }
{
    let _nodes = graph.nodes();
}
