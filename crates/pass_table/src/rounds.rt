// What each round of sinking finds out, and what it leaves. Each function fails only with `Memory`.
ghost use Rattle.std.specs.Prelude.{◌≡◌, ◌<◌, ◌+◌, ◌&&◌, not, length, IfOk, OnOk, Some};
ghost use Rattle.mir_base.specs.Appending.{AppendsOnOk};
ghost use Rattle.flow_graph.specs.Edges.{IsSplit};
ghost use Rattle.path_laws.specs.Paths.{HaveShape};
ghost use Rattle.graph_edit.specs.GraphFlows.{IsFlowOf};
ghost use Rattle.dead_code.specs.Pruned.{IsPruned};
ghost use Rattle.graph_edit.specs.NodeKinds.{is_skip};
ghost use Rattle.mir_opt.specs.declared.stages.Stage.TheVariants.{Round};
ghost use Rattle.mir_opt.specs.Stages.{graph_at};
ghost use Rattle.table_text.specs.Lines.{names_of_units};
ghost use Rattle.table_text.specs.Rows.{bit_byte};
ghost use Rattle.table_text.specs.Turns.{AppendsSome, InTurn};
ghost use Rattle.pass_table.specs.Rounds.{IsDeadLine, IsLiveText, IsRoundAt, IsSunkText, became_skip, dead_line, flags_below, sunk_line, variable_line, variables_below};
ghost use Rattle.pass_table.specs.Sinkings.{IsSinkingOf};
ghost use Rattle.pass_table.specs.Units.{IsUnitLinked};

use crate::stages::{put_round_finding, put_shown};
use copy_flow::copied_splits;
use dead_code::live_rows;
use edge_split::split_splits;
use flow_graph::{Graph, Node};
use graph_edit::{GraphFlow, is_skip};
use mir_base::{Memory, Name, Unit as MirUnit};
use mir_opt::{Stage, UnitTrail};
use sink_code::sunk;
use std::alloc::Global;
use table_text::{Columns, put_bits, put_count, put_graph, put_name};

/// Appends the rounds of a unit.
pub(crate) fn put_rounds(
    alloc: Global,
    text: &mut Vec<u8>,
    units: &[MirUnit],
    unit: &UnitTrail,
) -> Result<(), Memory>
    requires { IsUnitLinked unit.now }
    ensures { OnOk result (AppendsSome
        (InTurn (IsRoundAt (names_of_units units.now) unit.now) (length unit.now.rounds.graphs))
        text.old text.new) }
{
    sunk_is_split(unit);
    let mut flow = GraphFlow::of(alloc, unit.graph(Stage::Round(0)))?;
    for number in 0..unit.rounds.graphs.items().len() {
        flow = put_round(alloc, text, units, unit, number, number + 1, &flow)?;
    }
    Ok(())
}

/// Has no effect; carries the theorem that the graph before the rounds is split.
fn sunk_is_split(unit: &UnitTrail)
    requires { IsUnitLinked unit.now }
    ensures { IsSplit unit.now.recopied.nodes }
{
    let _nodes = unit.split.nodes();
    split_splits(&unit.copied, &unit.split);
    copied_splits(&unit.moved, &unit.recopied);
}

/// Appends the round behind so many others, which has the next number, and gives the edges and the blocks of the graph
/// that it makes. The graph before it, whose edges and blocks are `flow`, is split, as that behind it is too.
fn put_round(
    alloc: Global,
    text: &mut Vec<u8>,
    units: &[MirUnit],
    unit: &UnitTrail,
    number: usize,
    next: usize,
    flow: &GraphFlow,
) -> Result<GraphFlow, Memory>
    requires linked { IsUnitLinked unit.now }
    requires number { number < length unit.now.rounds.graphs }
    requires next { next ≡ number + 1 }
    requires split { IsSplit (graph_at unit.now (Round number)).nodes }
    requires flow { IsFlowOf (graph_at unit.now (Round number)).nodes flow.now }
    ensures text { OnOk result (AppendsSome (IsRoundAt (names_of_units units.now) unit.now number)
        text.old text.new) }
    ensures split { OnOk result (IsSplit (graph_at unit.now (Round (number + 1))).nodes) }
    ensures flow { IfOk result (IsFlowOf (graph_at unit.now (Round (number + 1))).nodes) }
{
    put_round_finding(alloc, text, unit, next, &flow.edges)?;
    let sinking = sunk_with_flow(alloc, unit.graph(Stage::Round(number)), flow)?;
    put_sunk(
        alloc,
        text,
        units,
        next,
        &sinking,
        unit.graph(Stage::Round(next)),
    )?;
    put_shown(text, units, unit, Stage::Round(next))?;
    let Sinking { flow, .. } = sinking;
    Ok(flow)
}

/// A graph whose assignments have sunk, with its edges and its blocks.
#[derive(Drop)]
struct Sinking {
    graph: Graph,
    flow: GraphFlow,
}

/// The graph in which the assignments of a graph have sunk, whose edges and blocks are `flow`, with its own.
fn sunk_with_flow(alloc: Global, graph: &Graph, flow: &GraphFlow) -> Result<Sinking, Memory>
    requires split { IsSplit graph.now.nodes }
    requires flow { IsFlowOf graph.now.nodes flow.now }
    ensures { IfOk result (IsSinkingOf graph.now) }
{
    let graph = sunk(alloc, graph, flow)?;
    let flow = GraphFlow::of(alloc, &graph)?;
    let _nodes = graph.nodes();
    Ok(Sinking { graph, flow })
}

/// Appends the graph whose assignments have sunk in the round of this number, and what is dead and live in it, where
/// the second graph is the one without the dead assignments.
fn put_sunk(
    alloc: Global,
    text: &mut Vec<u8>,
    units: &[MirUnit],
    number: usize,
    sinking: &Sinking,
    pruned: &Graph,
) -> Result<(), Memory>
    requires pruned { IsPruned sinking.now.graph pruned.now }
    requires flow { IsFlowOf sinking.now.graph.nodes sinking.now.flow }
    ensures { OnOk result
        (AppendsSome (IsSunkText (names_of_units units.now) number sinking.now.graph)
        text.old text.new) }
{
    let sunk = &sinking.graph;
    put_title(text, number)?;
    put_graph(text, units, sunk)?;
    put_dead(text, sunk, pruned)?;
    put_live(alloc, text, sunk, &sinking.flow)?;
    Ok(())
}

/// Appends the name of the stage at which assignments have sunk in the round of this number.
fn put_title(text: &mut Vec<u8>, number: usize) -> Result<(), Memory>
    ensures { AppendsOnOk result text.old text.new (sunk_line number) }
{
    text.extend_from_slice(b"stage sunk")?;
    put_count(text, number)?;
    text.extend_from_slice(b"\n")
}

// ---- dead assignments

/// Appends which nodes of a graph are dead assignments: those that are Skips in the graph without them.
fn put_dead(text: &mut Vec<u8>, graph: &Graph, pruned: &Graph) -> Result<(), Memory>
    requires { IsPruned graph.now pruned.now }
    ensures { OnOk result (AppendsSome (IsDeadLine graph.now) text.old text.new) }
{
    put_dead_line(text, graph.nodes(), pruned.nodes())?;
    Ok(())
}

/// Appends which nodes became Skips, as those that were dead.
fn put_dead_line(text: &mut Vec<u8>, before: &[Node], after: &[Node]) -> Result<(), Memory>
    requires { length after.now ≡ length before.now }
    ensures { AppendsOnOk result text.old text.new
        (dead_line (became_skip before.now after.now) (length before.now)) }
{
    text.extend_from_slice(b"pass prune\nrow ")?;
    put_new_skips(text, before, after)?;
    text.extend_from_slice(b" dead\n")?;
    Ok(())
}

/// Appends a bit for each node: whether it became a Skip.
fn put_new_skips(text: &mut Vec<u8>, before: &[Node], after: &[Node]) -> Result<(), Memory>
    requires { length after.now ≡ length before.now }
    ensures { AppendsOnOk result text.old text.new
        (flags_below (became_skip before.now after.now) (length before.now)) }
{
    for number in 0..before.len() {
        text.push(skip_byte(&before[number], &after[number]))?;
    }
    Ok(())
}

/// `1` for a node that became a Skip, and `0` for every other one.
fn skip_byte(before: &Node, after: &Node) -> u8
    ensures { result ≡ bit_byte (not (is_skip (Some before.now)) && is_skip (Some after.now)) }
{
    if !is_skip(before) && is_skip(after) {
        b'1'
    } else {
        b'0'
    }
}

// ---- live variables

/// Appends the variables of a graph, each with the nodes before which it is live, by its edges and its blocks.
fn put_live(
    alloc: Global,
    text: &mut Vec<u8>,
    graph: &Graph,
    flow: &GraphFlow,
) -> Result<(), Memory>
    requires { IsFlowOf graph.now.nodes flow.now }
    ensures { OnOk result (AppendsSome (IsLiveText graph.now) text.old text.new) }
{
    let live = live_rows(alloc, graph, flow)?;
    let lines = Columns::of(alloc, &live)?;
    put_variables(text, graph, &lines)?;
    Ok(())
}

/// Appends the variables of a graph, each with the nodes before which it is live.
fn put_variables(text: &mut Vec<u8>, graph: &Graph, live: &Columns) -> Result<(), Memory>
    requires { HaveShape graph.now (length graph.now.vars) live.now }
    ensures { AppendsOnOk result text.old text.new
        (variables_below graph.now.vars live.now (length graph.now.vars)) }
{
    for number in 0..graph.vars().len() {
        put_variable(text, graph.vars(), number)?;
        put_bits(text, live, number, b"live before")?;
    }
    Ok(())
}

/// Appends the number and the name of a variable.
fn put_variable(text: &mut Vec<u8>, vars: &[Name], number: usize) -> Result<(), Memory>
    ensures { AppendsOnOk result text.old text.new (variable_line vars.now number) }
{
    text.extend_from_slice(b"variable")?;
    put_count(text, number)?;
    text.extend_from_slice(b" ")?;
    put_name(text, vars, number)?;
    text.extend_from_slice(b"\n")
}
