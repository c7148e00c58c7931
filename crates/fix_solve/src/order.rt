// The order in which the nodes are first visited: what leads to a node mostly stands before it.
ghost use Rattle.std.specs.Prelude.{◌<◌, ◌≤◌, IfOk, OnOk};
ghost use Rattle.fix_solve.specs.OrderWalks.{AreNodes, WalksOver};

use crate::{Flow, Memory};
use std::alloc::Global;

/// A walk over all edges, depth first, that goes back along the edges by which it came. `nexts` has the number of the
/// next edge of each node that was seen, or `LEFT`, and `froms` the node from which the walk came to it, or, where that is
/// none, the number of nodes; of a node that was not seen it has `UNSEEN`. `order` has the nodes that are left for good,
/// and `backs` the two ends of each edge that closes a circle: it leads to a node that was not left yet, on the way to
/// its own source.
#[derive(Drop)]
pub(crate) struct DepthFirst {
    nexts: Vec<usize>,
    pub(crate) froms: Vec<usize>,
    pub(crate) order: Vec<usize>,
    pub(crate) backs: Vec<(usize, usize)>,
}

/// Stands for a node that was not seen.
const UNSEEN: usize = usize::MAX;

/// Stands for the next edge of a node that was left for good.
const LEFT: usize = usize::MAX;

/// The walk that has the nodes in postorder of the edges: each node before those that lead to it, but along the edges that
/// close a circle. Where no edge leads down it has none, for then the ascending order has each node after those that lead
/// to it.
pub(crate) fn order_of<F: Flow>(alloc: Global, flow: &F) -> Result<DepthFirst, Memory>
    requires { F.valid flow.now }
    ensures { IfOk result (λ walk. AreNodes (F.net flow.now).nodes walk.order.items) }
{
    let down = edges_down(flow);
    if down == 0 {
        Ok(DepthFirst {
            nexts: Vec::new(alloc),
            froms: Vec::new(alloc),
            order: Vec::new(alloc),
            backs: Vec::new(alloc),
        })
    } else {
        // Most edges of a flow against the edges of a program lead down, and its last nodes are where it begins.
        let from_last = flow.edges() - down < down;
        let walk = walked(alloc, flow, from_last)?;
        Ok(walk)
    }
}

/// How many edges lead to a node with a lower number.
fn edges_down<F: Flow>(flow: &F) -> usize
    requires { F.valid flow.now }
    ensures { result ≤ (F.net flow.now).edges }
{
    let edges = flow.edges();
    let mut down = 0;
    for number in 0..edges {
        let (source, target) = flow.edge(number);
        if target < source {
            down += 1;
        }
    }
    down
}

/// The walk over all nodes. It begins anew at each node that it did not see, from the first on or from the last.
fn walked<F: Flow>(alloc: Global, flow: &F, from_last: bool) -> Result<DepthFirst, Memory>
    requires { F.valid flow.now }
    ensures { IfOk result (λ walk. WalksOver (F.net flow.now) walk) }
{
    let nodes = flow.nodes();
    let mut walk = DepthFirst {
        nexts: vec![in alloc; 0; nodes]?,
        froms: vec![in alloc; UNSEEN; nodes]?,
        order: Vec::with_capacity(alloc, nodes)?,
        backs: Vec::with_capacity(alloc, nodes)?,
    };
    for count in 0..nodes {
        let root = if from_last { nodes - 1 - count } else { count };
        walk_from(&mut walk, flow, root)?;
    }
    Ok(walk)
}

/// Walks over what is come to from a node, if that was not seen.
fn walk_from<F: Flow>(walk: &mut DepthFirst, flow: &F, root: usize) -> Result<(), Memory>
    requires valid { F.valid flow.now }
    requires in_range { root < (F.net flow.now).nodes }
    requires walk { WalksOver (F.net flow.now) walk.old }
    ensures walk { OnOk result (WalksOver (F.net flow.now) walk.new) }
{
    if walk.froms[root] != UNSEEN {
        return Ok(());
    }
    let nodes = flow.nodes();
    see(walk, flow, nodes, root);
    let mut node = root;
    // Each step takes an edge, or puts a node at the end of the order.
    let steps = flow.edges().saturating_add(nodes);
    for _step in 0..steps {
        if node < nodes {
            node = go_on(walk, flow, node)?;
        } else {
            break;
        }
    }
    Ok(())
}

/// Goes on from a node, and answers where the walk then is: along the next edge, to a node that was not seen, or else
/// back from the node, which is put at the end of the order.
fn go_on<F: Flow>(walk: &mut DepthFirst, flow: &F, node: usize) -> Result<usize, Memory>
    requires valid { F.valid flow.now }
    requires in_range { node < (F.net flow.now).nodes }
    requires walk { WalksOver (F.net flow.now) walk.old }
    ensures walk { OnOk result (WalksOver (F.net flow.now) walk.new) }
{
    let number = walk.nexts[node];
    let (_, end) = flow.out(node);
    if number < end {
        walk.nexts[node] = number + 1;
        let (_, target) = flow.edge(number);
        if walk.froms[target] == UNSEEN {
            see(walk, flow, node, target);
            Ok(target)
        } else {
            if walk.nexts[target] != LEFT {
                walk.backs.push((node, target))?;
            }
            Ok(node)
        }
    } else {
        walk.order.push(node)?;
        walk.nexts[node] = LEFT;
        Ok(walk.froms[node])
    }
}

/// Comes from one node, or from none, to another, which was not seen.
fn see<F: Flow>(walk: &mut DepthFirst, flow: &F, from: usize, node: usize)
    requires valid { F.valid flow.now }
    requires in_range { node < (F.net flow.now).nodes }
    requires walk { WalksOver (F.net flow.now) walk.old }
    ensures { WalksOver (F.net flow.now) walk.new }
{
    let (first, _) = flow.out(node);
    walk.nexts[node] = first;
    walk.froms[node] = from;
}
