// The unit of a graph.
ghost use Rattle.std.specs.Prelude.{◌≡◌, ◌<◌, length, slice_get, IfOk};
ghost use Rattle.flow_graph.specs.DividingUnits.{DivisionsLaid};
ghost use Rattle.flow_graph.specs.Graphs.{IsGraph, SharesVars};
ghost use Rattle.flow_graph.specs.Keeps.{AsGraph, AsUnit, Keeps};
ghost use Rattle.flow_graph.specs.Layouts.{IsLaid, IsLayout};
ghost use Rattle.flow_graph.specs.Lowered.{CanLower};
ghost use Rattle.flow_graph.specs.Plans.{start_succ};

use crate::emit::{emit, places};
use crate::plan::plan;
use crate::rename::{names, rename};
use crate::seen::SeenVars;
use crate::{Graph, Node};
use mir_base::{Inst, Items, Memory, Name, Unit as MirUnit};
use std::alloc::Global;

/// The unit of a graph. The receives stand first, and then stretches of nodes. The first stretch begins at Start's
/// successor, and each later one at the `taken` successor of the first Test, in the order of placing, whose `taken`
/// successor has no place yet. A stretch goes on with the only successor of a node or the `other` of a Test; it ends
/// after a Return, and with a Goto where that node has a place already. A Skip emits nothing. The variables of the unit
/// are the globals and the others that occur, in the order of their first occurrence. The unit does the same as the
/// graph and evaluates no more operators. The time is linear in nodes and edges. It fails only with `Memory`.
pub fn layout(alloc: Global, graph: &Graph) -> Result<MirUnit, Memory>
    ensures layout { IfOk result (λ unit. IsLayout graph.now unit) }

    // it has the name of the graph, does the same, evaluates no more operators, and makes no other calls
    ensures keeps { IfOk result (λ unit. Keeps (AsGraph graph.now) (AsUnit unit)) }

    // each division of the graph is an instruction of the unit
    ensures divides { IfOk result (DivisionsLaid graph.now) }

    // it can be lowered again
    ensures lowers { IfOk result (λ unit. CanLower unit.shared unit.body) }
{
    let unit = layout_unit(alloc, graph)?;
    Ok(unit)
}

/// The unit of a graph.
fn layout_unit(alloc: Global, graph: &Graph) -> Result<MirUnit, Memory>
    ensures layout { IfOk result (λ unit. IsLayout graph.now unit) }
    ensures graph { IsGraph graph.now.vars graph.now.received graph.now.nodes }
    ensures shares { SharesVars graph.now.shared graph.now.vars graph.now.received }
{
    let shared = graph.shared();
    let laid = lay(alloc, shared, graph.vars(), graph.received(), graph.nodes())?;
    let name = graph.name().clone()?;
    Ok(MirUnit {
        name,
        shared,
        vars: Items::of(laid.names),
        body: Items::of(laid.body),
    })
}

/// The variables and the body of a unit.
#[derive(Drop)]
struct Laid {
    names: Vec<Name>,
    body: Vec<Inst>,
}

/// Lays out the nodes of a graph.
fn lay(
    alloc: Global,
    shared: usize,
    vars: &[Name],
    received: &[usize],
    nodes: &[Node],
) -> Result<Laid, Memory>
    requires graph { IsGraph vars.now received.now nodes.now }
    requires shares { SharesVars shared vars.now received.now }
    ensures { IfOk result (λ laid.
        IsLaid shared vars.now received.now nodes.now laid.names.items laid.body.items) }
{
    let items = plan(alloc, nodes, start_succ(nodes))?;
    let places = places(alloc, nodes, items.as_slice(), received.len())?;
    let mut body = emit(alloc, received, nodes, items.as_slice(), places.as_slice())?;
    let seen = SeenVars::of(alloc, vars.len(), shared, body.as_slice())?;
    rename(alloc, &seen, &mut body)?;
    let names = names(alloc, vars, seen.seen())?;
    Ok(Laid { names, body })
}

/// Where Start leads.
fn start_succ(nodes: &[Node]) -> usize
    requires { 0 < length nodes.now }
    ensures { result ≡ start_succ (slice_get nodes.now 0) }
{
    match &nodes[0] {
        Node::Start(next) => *next,
        _ => 0,
    }
}
