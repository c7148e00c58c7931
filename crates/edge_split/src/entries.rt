// How many edges enter each node, as far as it matters.
ghost use Rattle.std.specs.Prelude.{◌≡◌, ℕ, ◌<◌, ◌≤◌, length, replicate, slice_index, IfOk};
ghost use Rattle.mir_base.specs.Shapes.{AllBelow};
ghost use Rattle.edge_split.specs.Split.{AddEntries, CountEntries, entered_again};

use flow_graph::Graph;
use mir_base::Memory;
use std::alloc::Global;

/// How many edges enter each node, counted up to two. No edge is listed for it. It fails only with `Memory`.
pub(crate) fn entries(alloc: Global, graph: &Graph) -> Result<Vec<usize>, Memory>
    ensures len { IfOk result (λ entries. length entries.items ≡ length graph.now.nodes) }
    ensures are { IfOk result (λ entries. CountEntries graph.now.nodes entries.items) }
{
    let nodes = graph.nodes();
    let mut entries = none_yet(alloc, nodes.len())?;
    for n in 0..nodes.len() {
        count(&mut entries, graph.succs(n).as_slice());
    }
    Ok(entries)
}

/// So many counts, all 0.
fn none_yet(alloc: Global, nodes: usize) -> Result<Vec<usize>, Memory>
    ensures { IfOk result (λ entries. entries.items ≡ replicate nodes 0) }
{
    Ok(vec![in alloc; 0; nodes]?)
}

/// Counts one more entry for each of these successors, up to two.
fn count(entries: &mut Vec<usize>, succs: &[usize])
    requires within { AllBelow (length entries.old.items) succs.now }
    requires few { (s : ℕ) → slice_index entries.old.items s ≤ 2 }
    ensures len { length entries.new.items ≡ length entries.old.items }
    ensures counted { AddEntries entries.old.items entries.new.items succs.now }
{
    for succ in succs {
        count_one(entries, *succ);
    }
}

/// Counts one more entry of a node, up to two.
fn count_one(entries: &mut Vec<usize>, node: usize)
    requires there { node < length entries.old.items }
    requires few { slice_index entries.old.items node ≤ 2 }
    ensures { entries.new.items ≡ entered_again entries.old.items node }
{
    let count = entries[node];
    entries[node] = (count + 1).min(2);
}
