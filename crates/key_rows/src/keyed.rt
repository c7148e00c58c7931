// Rows by nodes with a bit for each key of a table.
ghost use Rattle.std.specs.Prelude.{◌≡◌, length, IfOk, Option};
ghost use Rattle.flow_graph.specs.declared.nodes.Node.{Node};
ghost use Rattle.key_rows.specs.KeyRows.{AreKeyRowsWhere, HasKey};

use bit_rows::Rows;
use flow_graph::Node;
use key_table::{Key, KeyTable};
use mir_base::Memory;
use std::alloc::Global;

/// A way to read a key off a node, which may have none.
pub trait KeyOf<K: Key> {
    ghost key_of: { Self → Node → Option K };

    /// The key of the node. It does not allocate.
    fn key_of(&self, node: &Node) -> Option<K>
        ensures { result ≡ key_of self.now node.now };
}

/// Which key of the table each node has: one row for each node, one bit for each key. It fails only with `Memory`.
pub fn key_rows<K: Key, O: KeyOf<K>>(
    alloc: Global,
    nodes: &[Node],
    table: &KeyTable<K>,
    of: &O,
) -> Result<Rows, Memory>
    ensures { IfOk result
        (AreKeyRowsWhere (length nodes.now) table.now (HasKey (O.key_of of.now) nodes.now)) }
{
    let mut rows = Rows::new(alloc, nodes.len(), table.len())?;
    for n in 0..nodes.len() {
        if let Some(number) = table.find_some(of.key_of(&nodes[n])) {
            rows.set(n, number, true);
        }
    }
    Ok(rows)
}
