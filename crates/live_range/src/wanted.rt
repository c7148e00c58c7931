// From which nodes a replaced use is come to with no insertion on the way.
ghost use Rattle.std.specs.Prelude.{◌≡◌, length, IfOk, Some};
ghost use Rattle.flow_graph.specs.Blocks.{AreBlocksOf};
ghost use Rattle.flow_graph.specs.Edges.{edges_of};
ghost use Rattle.flow_graph.specs.Paths.{is_return};
ghost use Rattle.path_laws.specs.Paths.{AreRows, HaveShape};
ghost use Rattle.live_range.specs.Wanted.{AreMaskedBelow, AreReachingRows, AreReturnRows, AreWantedRows, HaveOnlyBitsOf};

use bit_rows::Rows;
use flow_graph::{Blocks, Edges, Graph, Node};
use mir_base::Memory;
use motion_rewrite::Placement;
use path_laws::backward_some_over;
use std::alloc::Global;

/// From which nodes a path comes to a replaced use, from which a Return is reached, with no insertion on it, the ends
/// included: one row for each node, so many bits for as many expressions.
pub(crate) fn wanted_rows(
    alloc: Global,
    graph: &Graph,
    edges: &Edges,
    bits: usize,
    placement: &Placement,
) -> Result<Rows, Memory>
    requires edges { edges.now ≡ edges_of graph.now.nodes }
    requires insert { HaveShape graph.now bits placement.now.insert }
    requires replace { HaveShape graph.now bits placement.now.replace }
    ensures shape { IfOk result (HaveShape graph.now bits) }
    ensures wanted { IfOk result (AreWantedRows graph.now bits placement.now) }
{
    let blocks = Blocks::of(alloc, graph, edges)?;
    let reaching = reaching_rows(alloc, graph, edges, &blocks)?;
    let mut born = placement.replace.without(alloc, &placement.insert)?;
    mask_rows(&mut born, &placement.replace, &reaching);
    let rows = backward_some_over(alloc, graph, edges, &blocks, &born, &placement.insert)?;
    Ok(rows)
}

/// From which nodes a Return is reached.
fn reaching_rows(
    alloc: Global,
    graph: &Graph,
    edges: &Edges,
    blocks: &Blocks,
) -> Result<Rows, Memory>
    requires edges { edges.now ≡ edges_of graph.now.nodes }
    requires blocks { AreBlocksOf graph.now.nodes blocks.now }
    ensures { IfOk result (AreReachingRows graph.now) }
{
    let returns = return_rows(alloc, graph.nodes())?;
    let nowhere = Rows::new(alloc, graph.len(), 1)?;
    let rows = backward_some_over(alloc, graph, edges, blocks, &returns, &nowhere)?;
    Ok(rows)
}

/// Which nodes are Returns.
fn return_rows(alloc: Global, nodes: &[Node]) -> Result<Rows, Memory>
    ensures { IfOk result (AreReturnRows nodes.now) }
{
    let mut rows = Rows::new(alloc, nodes.len(), 1)?;
    for n in 0..nodes.len() {
        rows.set(n, 0, is_return(&nodes[n]));
    }
    Ok(rows)
}

/// Whether the node is a Return.
fn is_return(node: &Node) -> bool
    ensures { result ≡ is_return (Some node.now) }
{
    match node {
        Node::Return(_) => true,
        _ => false,
    }
}

/// Each row, which has only bits of that of the second rows, stays where its bit is set in the third, and else loses
/// all bits.
fn mask_rows(rows: &mut Rows, same: &Rows, mask: &Rows)
    requires same { HaveOnlyBitsOf same.now rows.old }
    requires mask { AreRows (length rows.old) 1 mask.now }
    ensures { AreMaskedBelow (length rows.old) mask.now rows.old rows.new }
{
    for n in 0..rows.len() {
        if !mask.get(n, 0) {
            rows.minus_into(n, same, n);
        }
    }
}
