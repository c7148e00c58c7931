// The table of the keys that nodes have.
ghost use Rattle.std.specs.Prelude.{[], IfOk};
ghost use Rattle.flow_graph.specs.declared.nodes.Node.{Node};
ghost use Rattle.mir_base.specs.Shapes.{AllDiffer};
ghost use Rattle.key_rows.specs.Gathered.{TakesKeys};

use crate::KeyOf;
use flow_graph::Node;
use key_table::{Key, KeyTable};
use mir_base::Memory;
use std::alloc::Global;

/// The keys that the nodes have, in order of the first node that has each. It fails only with `Memory`.
pub fn node_keys<K: Key, O: KeyOf<K>>(
    alloc: Global,
    nodes: &[Node],
    of: &O,
) -> Result<KeyTable<K>, Memory>
    ensures keys { IfOk result (TakesKeys (O.key_of of.now) nodes.now []) }
    ensures differ { IfOk result AllDiffer }
{
    let mut table = KeyTable::new(alloc);
    for node in nodes {
        if let Some(key) = of.key_of(node) {
            table.number(key)?;
        }
    }
    Ok(table)
}
