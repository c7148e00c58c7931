// Assignments in the place of a node.
ghost use Rattle.std.specs.Prelude.{◌≡◌, ◌++◌, ◌+◌, ◌<◌, length, OnOk};
ghost use Rattle.mir_base.specs.declared.instructions.Rhs.TheVariants.{Plain};
ghost use Rattle.graph_edit.specs.Insertions.{chain, entry_among};
ghost use Rattle.program_pass.specs.Chains.{stood};
ghost use Rattle.program_pass.specs.Puts.{insertions};

use flow_graph::Node;
use mir_base::{Memory, Operand, Rhs};

/// A new assignment.
#[derive(Clone, Copy, Debug, PartialEq, Eq)]
pub struct Put {
    /// The variable.
    pub var: usize,
    /// The right side.
    pub rhs: Rhs,
}

/// The assignment of an operand. It does not allocate.
pub fn plain_put(var: usize, operand: Operand) -> Put
    ensures { result ≡ record { var = var; rhs = Plain operand } }
{
    Put {
        var,
        rhs: Rhs::Plain(operand),
    }
}

/// Lets the assignments stand in the place of node `n`: it becomes the first of them, the others are new nodes in
/// order, and the last leads to node `end`. Where there are none, it becomes a Skip to `end`. It fails only with
/// `Memory`.
pub fn stand(nodes: &mut Vec<Node>, n: usize, puts: &[Put], end: usize) -> Result<(), Memory>
    requires { n < length nodes.old.items }
    ensures { OnOk result (nodes.new.items ≡ stood nodes.old.items n (insertions puts.now) end) }
{
    match puts.split_first() {
        None => {
            nodes[n] = Node::Skip(end);
            Ok(())
        }
        Some((put, others)) => {
            nodes[n] = Node::Assign(put.var, put.rhs, entry(end, nodes.len(), others));
            push_chain(nodes, others, end)
        }
    }
}

/// Where the assignments are entered that have the numbers from `first` on, and of which the last leads to `end`.
fn entry(end: usize, first: usize, puts: &[Put]) -> usize
    ensures { result ≡ entry_among end first (insertions puts.now) }
{
    if puts.is_empty() { end } else { first }
}

/// The assignments as new nodes, in order. The last leads to `end`.
fn push_chain(nodes: &mut Vec<Node>, puts: &[Put], end: usize) -> Result<(), Memory>
    ensures { OnOk result (nodes.new.items ≡
        nodes.old.items ++ chain end (length nodes.old.items) (insertions puts.now)) }
{
    for i in 0..puts.len() {
        let next = entry(end, nodes.len() + 1, &puts[i + 1..]);
        nodes.push(Node::Assign(puts[i].var, puts[i].rhs, next))?;
    }
    Ok(())
}
