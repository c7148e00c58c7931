// Graphs from lists of nodes: the nodes that are reached are retained and renumbered.
ghost use Rattle.std.specs.Prelude.{◌≡◌, ◌<◌, [], ◌∷◌, ◌++◌, ◌↔◌, length, IfOk, IsTrue, OnOk, if◌then◌else◌};
ghost use Rattle.flow_graph.specs.Graphs.{AllWithin, CanMake, SharesVars};
ghost use Rattle.flow_graph.specs.Retained.{marked, AreAllSet, AreRanks, IsMade, retained_nodes};

use crate::nodes::redirect;
use crate::reach::reach;
use crate::sharing::Names;
use crate::{Graph, Node};
use mir_base::{Items, Memory, Name};
use std::alloc::Global;

/// The graph of the nodes that are reached from node 0, renumbered in their old order.
pub(crate) fn make(
    alloc: Global,
    name: Name,
    shared: usize,
    vars: Names,
    received: Vec<usize>,
    nodes: Vec<Node>,
) -> Result<Graph, Memory>
    requires can { CanMake vars received.items nodes.items }
    requires shares { SharesVars shared vars received.items }
    ensures { IfOk result (λ graph. IsMade name shared vars received.items nodes.items graph) }
{
    let marks = reach(alloc, nodes.as_slice())?;
    let retained = only_marked(alloc, nodes, marks.as_slice())?;
    Ok(Graph {
        name,
        shared,
        vars,
        received: Items::of(received),
        nodes: retained,
        alloc,
    })
}

/// The marked nodes, renumbered: where each is marked, all as they stand.
fn only_marked(alloc: Global, nodes: Vec<Node>, marks: &[bool]) -> Result<Vec<Node>, Memory>
    requires long { length marks.now ≡ length nodes.items }
    requires within { AllWithin nodes.items }
    ensures { IfOk result (λ retained. retained.items ≡ retained_nodes marks.now nodes.items) }
{
    if are_all_set(marks) {
        return Ok(nodes);
    }
    let ranks = ranks(alloc, marks)?;
    retain(alloc, nodes, marks, ranks.as_slice())
}

/// Whether each mark is set.
fn are_all_set(marks: &[bool]) -> bool
    ensures { IsTrue result ↔ AreAllSet marks.now }
{
    for mark in marks {
        if !*mark {
            return false;
        }
    }
    true
}

/// For each mark, how many marks before it are set: the number that a marked node or unit gets where only these are kept.
/// It fails only with `Memory`.
pub fn ranks(alloc: Global, marks: &[bool]) -> Result<Vec<usize>, Memory>
    ensures { IfOk result (λ ranks. AreRanks marks.now ranks.items) }
{
    let mut ranks = Vec::with_capacity(alloc, marks.len())?;
    let mut rank = 0;
    for mark in marks {
        ranks.push(rank)?;
        if *mark {
            rank += 1;
        }
    }
    Ok(ranks)
}

/// The marked nodes, renumbered.
fn retain(
    alloc: Global,
    nodes: Vec<Node>,
    marks: &[bool],
    ranks: &[usize],
) -> Result<Vec<Node>, Memory>
    requires long { length marks.now ≡ length nodes.items }
    requires ranks { AreRanks marks.now ranks.now }
    requires within { AllWithin nodes.items }
    ensures { IfOk result (λ retained. retained.items ≡ retained_nodes marks.now nodes.items) }
{
    let mut retained = Vec::with_capacity(alloc, nodes.len())?;
    let mut number = 0;
    for node in nodes {
        let node = redirect(node, ranks);
        push_if(&mut retained, marks[number], node)?;
        number += 1;
    }
    Ok(retained)
}

/// Pushes the node where it is marked.
fn push_if(list: &mut Vec<Node>, marked: bool, node: Node) -> Result<(), Memory>
    ensures { OnOk result
        (list.new.items ≡ if marked then list.old.items ++ node ∷ [] else list.old.items) }
{
    if marked {
        list.push(node)?;
    }
    Ok(())
}
