// The nodes of a graph with the leaves that it calls.
ghost use Rattle.std.specs.Prelude.{◌≡◌, ◌++◌, ◌+◌, ◌-◌, ◌<◌, ◌≤◌, IfOk, OnOk, drop, length, map, slice_get};
ghost use Rattle.program_pass.specs.Marks.{AreMarksOf};
ghost use Rattle.program_pass.specs.Puts.{insertions};
ghost use Rattle.unit_join.specs.CopyTables.{HasCopyNumbers};
ghost use Rattle.unit_join.specs.Joins.{AreLeafCalls, IsLeafCall, LeavesAreJoined, copy_number, entered, entry_assignments, joined_by, leaf_node, leaf_place, nodes_with_leaf, zeroed};

use crate::calls::leaf_at;
use crate::copy_table::CopyTable;
use crate::copying::{CopyNumbers, copy, leaf_node, leaf_place, plus};
use crate::leaves::Leaves;
use flow_graph::{Graph, Node};
use mir_base::{Memory, Operand};
use program_pass::{Put, copied_nodes, marks_of, plain_put, stand, start_succ};
use std::alloc::Global;

/// The nodes of the graph, with the nodes of a leaf in the place of each of these calls.
pub(crate) fn joined(
    alloc: Global,
    graph: &Graph,
    leaves: &Leaves,
    table: &CopyTable,
    calls: &[usize],
) -> Result<Vec<Node>, Memory>
    requires calls { AreLeafCalls leaves.now.units graph.now.nodes calls.now }
    requires copies { HasCopyNumbers leaves.now.units (length graph.now.vars) table.now }
    ensures { IfOk result (λ joined. LeavesAreJoined leaves.now.units table.now.units.items
        graph.now calls.now graph.now.nodes joined.items) }
{
    let mut nodes = copied_nodes(alloc, graph.nodes())?;
    for call in calls {
        join_at(alloc, &mut nodes, graph, leaves, table, *call)?;
    }
    Ok(nodes)
}

/// Puts the leaf that node `call` calls in the place of this node.
fn join_at(
    alloc: Global,
    nodes: &mut Vec<Node>,
    graph: &Graph,
    leaves: &Leaves,
    table: &CopyTable,
    call: usize,
) -> Result<(), Memory>
    requires node { call < length graph.now.nodes }
    requires room { call < length nodes.old.items }
    requires copies { HasCopyNumbers leaves.now.units (length graph.now.vars) table.now }
    ensures { OnOk result ((c : IsLeafCall leaves.now.units graph.now.nodes call) → nodes.new.items
        ≡ joined_by leaves.now.units table.now.units.items graph.now nodes.old.items call c) }
{
    match graph.node(call) {
        Node::Call(into, unit, operands, next) => match leaf_at(leaves, *unit) {
            Some(leaf) => {
                let base = table.first_copy(*unit);
                let shared = graph.shared();
                put_leaf(
                    alloc,
                    nodes,
                    call,
                    leaf,
                    CopyNumbers { shared, base },
                    *into,
                    operands.items(),
                    *next,
                )?;
                Ok(())
            }
            None => Ok(()),
        },
        _ => Ok(()),
    }
}

/// Puts a leaf in the place of node `call`: the assignments of its entry, then its nodes but Start. `to` numbers the
/// copies of its variables; its Returns set `into`, if there is one, and lead to `next`.
fn put_leaf(
    alloc: Global,
    nodes: &mut Vec<Node>,
    call: usize,
    leaf: &Graph,
    to: CopyNumbers,
    into: Option<usize>,
    operands: &[Operand],
    next: usize,
) -> Result<(), Memory>
    requires { call < length nodes.old.items }
    ensures { OnOk result (let copy = copy_number to.shared to.base in nodes.new.items
        ≡ nodes_with_leaf nodes.old.items call copy leaf.now into operands.now next) }
{
    let puts = entry_assignments(alloc, leaf, to, operands)?;
    let first = plus(nodes.len(), puts.len().saturating_sub(1))?;
    let entry = leaf_place(first, start_succ(leaf))?;
    stand(nodes, call, puts.as_slice(), entry)?;
    push_leaf(nodes, leaf, to, first, into, next)
}

/// The nodes of the leaf without its Start, as new nodes.
fn push_leaf(
    nodes: &mut Vec<Node>,
    leaf: &Graph,
    to: CopyNumbers,
    first: usize,
    into: Option<usize>,
    next: usize,
) -> Result<(), Memory>
    ensures { OnOk result (let copy = copy_number to.shared to.base in
        let made = leaf_node copy (leaf_place first) into next in
        nodes.new.items ≡ nodes.old.items ++ map made (drop 1 leaf.now.nodes)) }
{
    for m in 1..leaf.len() {
        nodes.push(leaf_node(leaf.node(m), to, first, into, next)?)?;
    }
    Ok(())
}

/// The assignments of a call of the leaf: the copies of its received variables get the arguments, and those of all
/// others that are no globals become 0.
fn entry_assignments(
    alloc: Global,
    leaf: &Graph,
    to: CopyNumbers,
    operands: &[Operand],
) -> Result<Vec<Put>, Memory>
    ensures { IfOk result (λ puts. insertions puts.items ≡
        entry_assignments (copy_number to.shared to.base) leaf.now operands.now) }
{
    let received = leaf.received();
    let vars = leaf.vars().len();
    let mut puts = entered(alloc, received, to, operands)?;
    let marks = marks_of(alloc, received, vars)?;
    push_zeroed(
        &mut puts,
        marks.as_slice(),
        received,
        to,
        leaf.shared(),
        vars,
    )?;
    Ok(puts)
}

/// The assignments of the arguments to the copies of the received variables.
fn entered(
    alloc: Global,
    received: &[usize],
    to: CopyNumbers,
    operands: &[Operand],
) -> Result<Vec<Put>, Memory>
    ensures { IfOk result (λ puts. insertions puts.items ≡
        entered (copy_number to.shared to.base) received.now operands.now) }
{
    let mut puts = Vec::new(alloc);
    let mut i = 0;
    while i < received.len() && i < operands.len() {
        puts.push(plain_put(copy(to, received[i])?, operands[i]))?;
        i += 1;
    }
    Ok(puts)
}

/// Adds assignments of 0 to the copies of the variables from `first` to `vars` - 1 that are not received; the marks
/// tell which are received.
fn push_zeroed(
    puts: &mut Vec<Put>,
    marks: &[bool],
    received: &[usize],
    to: CopyNumbers,
    first: usize,
    vars: usize,
) -> Result<(), Memory>
    requires marks { AreMarksOf received.now vars marks.now }
    requires first { first ≤ vars }
    ensures { OnOk result (insertions puts.new.items ≡ insertions puts.old.items
        ++ zeroed (copy_number to.shared to.base) received.now first (vars - first)) }
{
    let _ = received;
    for x in first..vars {
        let marked = marks[x];
        if !marked {
            puts.push(plain_put(copy(to, x)?, Operand::Const(0)))?;
        }
    }
    Ok(())
}
