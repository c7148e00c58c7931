// The nodes of a graph with its self tail calls as loops.
ghost use Rattle.std.specs.Prelude.{◌≡◌, ◌++◌, ◌+◌, ◌-◌, ◌<◌, ◌≤◌, IfOk, OnOk, length, slice_get};
ghost use Rattle.flow_graph.specs.Plans.{start_succ};
ghost use Rattle.program_pass.specs.Marks.{AreMarksOf};
ghost use Rattle.program_pass.specs.Puts.{insertions};
ghost use Rattle.tail_loop.specs.Answered.{operands_at, operands_of};
ghost use Rattle.tail_loop.specs.Tails.{AreLooped, AreTailCalls, cleared, loop_assignments, moved, saved};

use flow_graph::{Graph, Node};
use mir_base::{Memory, Operand};
use program_pass::{Put, copied_nodes, marks_of, plain_put, stand, start_succ};
use std::alloc::{AllocError, Global};

/// The nodes of the graph, with its assignments in the place of each self tail call; new nodes have the next numbers.
/// It fails only with `Memory`.
pub(crate) fn looped(
    alloc: Global,
    graph: &Graph,
    unit: usize,
    calls: &[usize],
) -> Result<Vec<Node>, Memory>
    requires { AreTailCalls graph.now.shared graph.now.nodes unit calls.now }
    ensures { IfOk result (λ looped.
        AreLooped graph.now unit calls.now graph.now.nodes looped.items) }
{
    let mut nodes = copied_nodes(alloc, graph.nodes())?;
    for call in calls {
        let puts = assignments(alloc, graph, *call)?;
        stand(&mut nodes, *call, puts.as_slice(), start_succ(graph))?;
    }
    Ok(nodes)
}

/// The assignments of a self tail call: the temporaries get the arguments, the received variables get the temporaries,
/// and all other variables that are no globals become 0.
fn assignments(alloc: Global, graph: &Graph, call: usize) -> Result<Vec<Put>, Memory>
    requires { call < length graph.now.nodes }
    ensures { let operands = operands_at (slice_get graph.now.nodes call) in
        let vars = length graph.now.vars in
        let all = loop_assignments graph.now.shared vars graph.now.received operands in
        IfOk result (λ puts. insertions puts.items ≡ all) }
{
    let vars = graph.vars().len();
    let received = graph.received();
    let mut puts = saved(alloc, graph.node(call), vars)?;
    push_moved(&mut puts, vars, received)?;
    let marks = marks_of(alloc, received, vars)?;
    push_cleared(&mut puts, marks.as_slice(), received, graph.shared(), vars)?;
    Ok(puts)
}

/// The variables from number `first` on get the arguments of the call.
fn saved(alloc: Global, call: &Node, first: usize) -> Result<Vec<Put>, Memory>
    ensures { IfOk result (λ puts. insertions puts.items ≡ saved first (operands_of call.now)) }
{
    match call {
        Node::Call(_, _, operands, _) => saved_operands(alloc, operands.items(), first),
        _ => Ok(Vec::new(alloc)),
    }
}

/// The variables from number `first` on get the operands.
fn saved_operands(alloc: Global, operands: &[Operand], first: usize) -> Result<Vec<Put>, Memory>
    ensures { IfOk result (λ puts. insertions puts.items ≡ saved first operands.now) }
{
    let mut puts = Vec::new(alloc);
    for i in 0..operands.len() {
        puts.push(plain_put(number_after(first, i)?, operands[i]))?;
    }
    Ok(puts)
}

/// Adds assignments to the received variables, in order, of the variables from number `first` on.
fn push_moved(puts: &mut Vec<Put>, first: usize, received: &[usize]) -> Result<(), Memory>
    ensures { OnOk result
        (insertions puts.new.items ≡ insertions puts.old.items ++ moved first received.now) }
{
    for i in 0..received.len() {
        puts.push(plain_put(received[i], Operand::Var(number_after(first, i)?)))?;
    }
    Ok(())
}

/// Of so many variables those from number `first` on that are not received become 0. The marks tell which are received.
fn push_cleared(
    puts: &mut Vec<Put>,
    marks: &[bool],
    received: &[usize],
    first: usize,
    vars: usize,
) -> Result<(), Memory>
    requires marks { AreMarksOf received.now vars marks.now }
    requires first { first ≤ vars }
    ensures { OnOk result (insertions puts.new.items ≡
        insertions puts.old.items ++ cleared received.now first (vars - first)) }
{
    let _ = received;
    for x in first..vars {
        let marked = marks[x];
        if !marked {
            puts.push(plain_put(x, Operand::Const(0)))?;
        }
    }
    Ok(())
}

/// The sum.
fn number_after(first: usize, i: usize) -> Result<usize, Memory>
    ensures { IfOk result (λ number. number ≡ first + i) }
{
    first.checked_add(i).ok_or(AllocError)
}
