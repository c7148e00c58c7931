// On which edges temporaries are held.
ghost use Rattle.std.specs.Prelude.{◌≡◌, length, IfOk};
ghost use Rattle.bit_rows.specs.Bits.{AreEquallyLong};
ghost use Rattle.flow_graph.specs.Edges.{AllEnter, IsSplit, edges_of};
ghost use Rattle.path_laws.specs.Paths.{HaveShape};
ghost use Rattle.motion_rewrite.specs.Placements.{AreAdmissible};
ghost use Rattle.latest_place.specs.Lazy.{AreLazy};
ghost use Rattle.live_range.specs.Held.{AreHeldEdges, AreHeldLeast};
ghost use Rattle.live_range.specs.Wanted.{rows_by_target};

use crate::wanted::wanted_rows;
use bit_rows::Rows;
use down_safe::DownRule;
use flow_graph::{Edges, Graph};
use mir_base::Memory;
use motion_rewrite::{ExprTable, Placement};
use std::alloc::Global;

/// On which edges of a graph temporaries are held.
#[derive(Drop)]
pub struct Held {
    /// One row for each edge, in the order of `Edges`, and one bit for each expression: whether some path takes the
    /// edge from an insertion of the expression to a replaced use, from which a Return is reached, with no other
    /// insertion on the way.
    pub edges: Rows,
}

/// On which edges a placement that is admissible by the rule holds the temporary of each expression of the table. The
/// graph is split, `edges` are those of `graph`, and the placement has one row for each node and one bit for each
/// expression. It fails only with `Memory`.
///
/// An insertion serves each replaced use on every path to it, so an edge is held exactly where some path from its
/// target comes to a replaced use with no insertion on the way; nothing has to be found of the paths before the edge.
pub fn held_edges<R: DownRule>(
    alloc: Global,
    rule: &R,
    graph: &Graph,
    edges: &Edges,
    table: &ExprTable,
    placement: &Placement,
) -> Result<Held, Memory>
    requires split { IsSplit graph.now.nodes }
    requires edges { edges.now ≡ edges_of graph.now.nodes }
    requires insert { HaveShape graph.now (length table.now) placement.now.insert }
    requires replace { HaveShape graph.now (length table.now) placement.now.replace }
    requires admissible { AreAdmissible graph.now table.now (R.is_down rule.now graph.now)
        placement.now }
    ensures held { IfOk result (λ held.
        AreHeldEdges graph.now table.now placement.now held.edges) }
{
    // The proof needs what holds of every graph: that each node is reached.
    let _nodes = graph.nodes();
    let wanted = wanted_rows(alloc, graph, edges, table.len(), placement)?;
    let edges = by_target(alloc, edges, table.len(), &wanted)?;
    Ok(Held { edges })
}

/// On which edges the lazy placement of a rule holds the temporary of each expression of the table. The graph is split,
/// `edges` are those of `graph`, and the placement, with one row for each node and one bit for each expression, is the
/// lazy one of the rule, as `lazy` of `latest_place` answers it. It fails only with `Memory`.
///
/// Every placement that is optimal by the rule holds the temporary on these edges too: none keeps it alive shorter.
pub fn ranges<R: DownRule>(
    alloc: Global,
    rule: &R,
    graph: &Graph,
    edges: &Edges,
    table: &ExprTable,
    placement: &Placement,
) -> Result<Held, Memory>
    requires split { IsSplit graph.now.nodes }
    requires edges { edges.now ≡ edges_of graph.now.nodes }
    requires insert { HaveShape graph.now (length table.now) placement.now.insert }
    requires replace { HaveShape graph.now (length table.now) placement.now.replace }
    requires lazy { AreLazy graph.now table.now (R.is_down rule.now graph.now) placement.now }

    // exactly the edges on which the placement holds the temporaries
    ensures held { IfOk result (λ held.
        AreHeldEdges graph.now table.now placement.now held.edges) }

    // and every other optimal placement of an expression holds its temporary there too
    ensures least { AreHeldLeast graph.now table.now (R.is_down rule.now graph.now) placement.now }
{
    holds_least(rule, graph, table, placement);
    // The proof needs what holds of every graph: that each node is reached.
    let _nodes = graph.nodes();
    let held = held_edges(alloc, rule, graph, edges, table, placement)?;
    Ok(held)
}

/// Has no effect; carries the theorem that the lazy placement of a rule holds the temporary of each expression only
/// where every placement of the expression that is optimal by the rule holds it. The graph is split.
pub fn holds_least<R: DownRule>(rule: &R, graph: &Graph, table: &ExprTable, placement: &Placement)
    requires split { IsSplit graph.now.nodes }
    requires lazy { AreLazy graph.now table.now (R.is_down rule.now graph.now) placement.now }
    ensures { AreHeldLeast graph.now table.now (R.is_down rule.now graph.now) placement.now }
{
    // The proof needs what holds of every graph: that each node is reached.
    let _nodes = graph.nodes();
}

/// One row for each edge: that of its target, of rows by nodes with so many bits.
fn by_target(alloc: Global, edges: &Edges, bits: usize, rows: &Rows) -> Result<Rows, Memory>
    requires long { AreEquallyLong bits rows.now }
    requires within { AllEnter (length rows.now) edges.now.edges }
    ensures { IfOk result (λ made. made ≡ rows_by_target edges.now.edges rows.now) }
{
    let mut made = Rows::with_room(alloc, edges.len(), bits)?;
    for number in 0..edges.len() {
        made.push(&rows.row(edges.edge(number).target))?;
    }
    Ok(made)
}
