// The busy placement.
ghost use Rattle.flow_graph.specs.Edges.{IsSplit};
ghost use Rattle.motion_rewrite.specs.Placements.{AreAdmissible};
ghost use Rattle.down_safe.specs.Busy.{AreBusy, AreBusyRows};
ghost use Rattle.down_safe.specs.BusyPlaces.{placement_of};

use crate::{Busy, DownRule};
use flow_graph::Graph;
use motion_rewrite::ExprTable;

/// Has no effect; carries the theorem that the placement which rows of the rule, the graph and the table make, inserting
/// where an expression is earliest and replacing where it is used, is admissible. The graph is split.
pub fn busy_admits<R: DownRule>(rule: &R, graph: &Graph, table: &ExprTable, busy: &Busy)
    requires split { IsSplit graph.now.nodes }
    requires busy { AreBusyRows graph.now table.now (R.is_down rule.now graph.now) busy.now }
    ensures busy { AreBusy graph.now table.now (R.is_down rule.now graph.now)
        (placement_of busy.now) }
    ensures admissible { AreAdmissible graph.now table.now (R.is_down rule.now graph.now)
        (placement_of busy.now) }
{
    // The proof needs what holds of every graph: that each node is reached.
    let _nodes = graph.nodes();
}
