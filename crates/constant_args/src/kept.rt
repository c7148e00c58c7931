// The received variables that no node of a graph assigns.
ghost use Rattle.std.specs.Prelude.{◌≡◌, ◌++◌, flat_map, if◌then◌else◌, length, map, IfOk, None, OnOk, Some};
ghost use Rattle.mir_base.specs.Shapes.{AllBelow};
ghost use Rattle.constant_args.specs.ConstantArguments.{assigned_var};
ghost use Rattle.constant_args.specs.Gathered.{kept_var, kept_vars};

use flow_graph::{Graph, Node};
use mir_base::Memory;
use program_pass::marks_of;
use std::alloc::Global;

/// For each argument, by number, the variable that receives it, and `None` where some node assigns this variable. It
/// fails only with `Memory`.
pub(crate) fn kept_vars(alloc: Global, graph: &Graph) -> Result<Vec<Option<usize>>, Memory>
    ensures { IfOk result (λ kept. kept.items ≡ kept_vars graph.now) }
{
    let _nodes = graph.nodes();
    let assigned = assigned_vars(alloc, graph)?;
    let kept = kept_among(
        alloc,
        graph.received(),
        assigned.as_slice(),
        graph.vars().len(),
    )?;
    Ok(kept)
}

/// The variables that the nodes assign.
fn assigned_vars(alloc: Global, graph: &Graph) -> Result<Vec<usize>, Memory>
    ensures { IfOk result (λ vars. vars.items ≡ flat_map assigned_var graph.now.nodes) }
{
    let mut vars = Vec::new(alloc);
    for node in graph.nodes() {
        push_assigned(&mut vars, node)?;
    }
    Ok(vars)
}

/// Adds the variable that a node assigns, where it assigns one.
fn push_assigned(vars: &mut Vec<usize>, node: &Node) -> Result<(), Memory>
    ensures { OnOk result (vars.new.items ≡ vars.old.items ++ assigned_var node.now) }
{
    match node {
        Node::Assign(x, _, _) => {
            vars.push(*x)?;
            Ok(())
        }
        Node::Call(Some(x), _, _, _) => {
            vars.push(*x)?;
            Ok(())
        }
        _ => Ok(()),
    }
}

/// The received variables, with `None` in the place of each assigned one; all numbers are less than `vars`.
fn kept_among(
    alloc: Global,
    received: &[usize],
    assigned: &[usize],
    vars: usize,
) -> Result<Vec<Option<usize>>, Memory>
    requires { AllBelow vars received.now }
    ensures { IfOk result (λ kept. kept.items ≡ map (kept_var assigned.now) received.now) }
{
    let marks = marks_of(alloc, assigned, vars)?;
    let mut kept = Vec::with_capacity(alloc, received.len())?;
    for x in received {
        kept.push(unmarked(marks[*x], *x))?;
    }
    Ok(kept)
}

/// The variable, unless it is marked.
fn unmarked(marked: bool, x: usize) -> Option<usize>
    ensures { result ≡ (if marked then None else Some x) }
{
    if marked { None } else { Some(x) }
}
