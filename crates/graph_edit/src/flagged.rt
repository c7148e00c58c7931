// Assignments that are removed in place.
ghost use Rattle.std.specs.Prelude.{◌≡◌, ◌<◌, length};
ghost use Rattle.graph_edit.specs.Editing.{change_at};
ghost use Rattle.graph_edit.specs.Flagged.{flag_at, graph_flagged, pruned_from};
ghost use Rattle.graph_edit.specs.Insertions.{Removed};

use crate::editor::changed;
use flow_graph::{Graph, Node};
use std::alloc::Global;
use std::mem;

/// The graph in which each flagged assignment is a Skip with the same successor; all else is as it was. There is one
/// flag for each node. It does not allocate.
pub fn without_flagged(alloc: Global, graph: Graph, flags: &[bool]) -> Graph
    requires { length flags.now ≡ length graph.nodes }
    ensures { result ≡ graph_flagged flags.now graph }
{
    let parts = graph.into_parts();
    let mut nodes = parts.nodes;
    empty_flagged(&mut nodes, flags);
    Graph::of_parts(
        alloc,
        parts.name,
        parts.shared,
        parts.vars,
        parts.received,
        nodes,
    )
}

/// Makes each flagged assignment a Skip.
fn empty_flagged(nodes: &mut [Node], flags: &[bool])
    requires { length flags.now ≡ length nodes.old }
    ensures { nodes.new ≡ pruned_from (flag_at flags.now) 0 nodes.old }
{
    for n in 0..flags.len() {
        if flags[n] {
            empty(nodes, n);
        }
    }
}

/// Makes the node of this number a Skip to its successor where it is an assignment, and leaves any other as it is.
fn empty(nodes: &mut [Node], n: usize)
    requires { n < length nodes.old }
    ensures { nodes.new ≡ change_at n Removed nodes.old }
{
    let old = mem::replace(&mut nodes[n], Node::Skip(0));
    nodes[n] = changed(old, None);
}
