// Graphs with self tail calls as loops.
ghost use Rattle.std.specs.Prelude.{◌≡◌, length, IfOk};
ghost use Rattle.program_pass.specs.PassPrograms.{IsOnlyGraph, PassKeeps};
ghost use Rattle.tail_loop.specs.Tails.{AreTailCalls, IsTailed, Looped, SelfCallsFit, temporaries};
ghost use Rattle.tail_loop.specs.Widened.{HasTemporaries, TailMade};

use crate::calls::tail_calls;
use crate::looping::looped;
use flow_graph::Graph;
use fresh_names::temporary_names;
use graph_edit::Editor;
use mir_base::Memory;
use std::alloc::Global;

/// The graph of the unit of this number with its self tail calls as loops. A self tail call calls the unit itself,
/// gives its answer to a variable that is no global, and from there Skips, none at all included, lead to a Return of
/// this variable. In its place stand assignments: each argument goes to a temporary, each temporary to the received
/// variable, and each other variable that is no global becomes 0, as in a new frame; the last of them leads to where
/// Start leads. The temporaries are the same for all self tail calls, and there are none where there is no such call.
/// Then the nodes that are not reached are dropped. Each call of the unit has as many arguments as the graph has
/// received variables. It fails only with `Memory`.
pub(crate) fn tail(alloc: Global, graph: &Graph, unit: usize) -> Result<Graph, Memory>
    requires { SelfCallsFit graph.now.nodes unit (length graph.now.received) }
    ensures tailed { IfOk result (IsTailed graph.now unit) }
    ensures only { IfOk result (IsOnlyGraph (IsTailed graph.now unit)) }

    // it does the same as a graph with loops, evaluates no more operators, and makes no other calls
    ensures keeps { IfOk result (PassKeeps (Looped unit) graph.now) }
{
    let _nodes = graph.nodes();
    let calls = tail_calls(alloc, graph.shared(), graph.nodes(), unit)?;
    let tailed = with_loops(alloc, graph, unit, calls.as_slice())?;
    Ok(tailed)
}

/// The graph with these self tail calls as loops.
fn with_loops(alloc: Global, graph: &Graph, unit: usize, calls: &[usize]) -> Result<Graph, Memory>
    requires fit { SelfCallsFit graph.now.nodes unit (length graph.now.received) }
    requires calls { AreTailCalls graph.now.shared graph.now.nodes unit calls.now }
    ensures { IfOk result (TailMade graph.now unit calls.now) }
{
    let _nodes = graph.nodes();
    let _shared = graph.shared();
    let wide = widened(alloc, graph, calls)?;
    let nodes = looped(alloc, graph, unit, calls)?;
    let tailed = wide.with_nodes(alloc, nodes)?;
    Ok(tailed)
}

/// The graph with the temporaries for these self tail calls after its own variables.
fn widened(alloc: Global, graph: &Graph, calls: &[usize]) -> Result<Graph, Memory>
    ensures { IfOk result (HasTemporaries graph.now calls.now) }
{
    let _nodes = graph.nodes();
    let names = temporary_names(alloc, graph.vars(), temporaries(graph, calls))?;
    let editor = Editor::open(alloc, graph, names, 0)?;
    let wide = editor.close()?;
    Ok(wide)
}

/// How many temporaries there are: one for each received variable, where there is a self tail call.
fn temporaries(graph: &Graph, calls: &[usize]) -> usize
    ensures { result ≡ temporaries graph.now calls.now }
{
    if calls.is_empty() {
        0
    } else {
        graph.received().len()
    }
}
