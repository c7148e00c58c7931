// Rounds of sinking and pruning.
ghost use Rattle.std.specs.Prelude.{IfOk};
ghost use Rattle.flow_graph.specs.Edges.{IsSplit};
ghost use Rattle.graph_edit.specs.GraphFlows.{IsFlowOf};
ghost use Rattle.sink_rounds.specs.Outlines.{IsOutlineOf, MayBeFlow};
ghost use Rattle.sink_rounds.specs.RoundGraphs.{AreOnlyRounds, AreRounds, IsLastRound, IsOnlyRound, IsRound, KeepsGlobals, SaysChanged, last_round};
ghost use Rattle.sink_code.specs.RoundKept.{RoundKeeps};
ghost use Rattle.sink_code.specs.SunkGraphs.{IsSunk};
ghost use Rattle.sink_rounds.specs.RoundsKept.{RoundsKeep};
ghost use Rattle.sink_rounds.specs.Steps.{AreBestSteps, IsBestStep};
ghost use Rattle.sink_rounds.specs.RoundsMade.{IsMadeRound, IsPrunedRound};

use crate::answers::{Round, Rounds};
use crate::outlines::{Outline, compare};
use dead_code::pruned;
use flow_graph::Graph;
use graph_edit::GraphFlow;
use mir_base::{Items, Memory};
use sink_code::sunk;
use std::alloc::Global;

/// The most rounds that `rounds` makes.
pub const MOST_ROUNDS: usize = 16;

/// One round on a split graph: its assignments sink, and then the dead ones become Skips. `changed` is false exactly
/// where the old and the new graph have one layout. It fails only with `Memory`.
pub fn round(alloc: Global, graph: &Graph) -> Result<Round, Memory>
    requires { IsSplit graph.now.nodes }
    ensures exact { IfOk result (λ round. IsRound graph.now round.graph) }
    ensures changed { IfOk result (λ round. SaysChanged graph.now round.graph round.changed) }

    // there is no other such graph
    ensures only { IfOk result (λ round. IsOnlyRound graph.now round.graph) }
    ensures keeps { IfOk result (λ round. RoundKeeps graph.now round.graph) }

    // no last assignment of a global before a call or a return is removed
    ensures globals { IfOk result (λ round. KeepsGlobals graph.now round.graph) }

    // no step of sinking and removal leaves fewer of a plain or movable assignment on any full path
    ensures best { IfOk result (λ round. IsBestStep graph.now round.graph) }
{
    let made = first_round(alloc, graph)?;
    Ok(Round {
        graph: made.graph,
        changed: made.changed,
    })
}

/// The rounds of a split graph: the first is a round of the graph, and each other one of the one before. There are one
/// to `MOST_ROUNDS`. Only the last may have the layout of the graph before it, and it has unless there are
/// `MOST_ROUNDS`. It fails only with `Memory`.
pub fn rounds(alloc: Global, graph: &Graph) -> Result<Rounds, Memory>
    requires { IsSplit graph.now.nodes }
    ensures rounds { IfOk result (λ rounds. AreRounds graph.now rounds.graphs) }

    // there are no other such graphs
    ensures only { IfOk result (λ rounds. AreOnlyRounds graph.now rounds.graphs) }
    ensures keeps { IfOk result (λ rounds. RoundsKeep graph.now rounds.graphs) }

    // the last of them keeps of the graph what one round does
    ensures last { IfOk result (λ rounds. RoundKeeps graph.now (last_round graph.now rounds.graphs)) }

    // on no full path does a step from the graph before one of them leave fewer of any than that one does
    ensures best { IfOk result (λ rounds. AreBestSteps graph.now rounds.graphs) }
{
    let mut last = first_round(alloc, graph)?;
    let mut rounds = Vec::new(alloc);
    'rounds: while last.changed && rounds.len() < MOST_ROUNDS - 1 {
        let MadeRound {
            graph: made,
            flow,
            outline,
            ..
        } = last;
        let next = next_round(alloc, &made, flow, outline)?;
        rounds.push(made)?;
        last = next;
    }
    rounds.push(last.graph)?;
    Ok(Rounds {
        graphs: Items::of(rounds),
    })
}

/// The last of the rounds that `rounds` makes of a split graph. The others are let go on the way, so that no more than
/// two graphs stand in memory at once. It fails only with `Memory`.
pub fn last_of_rounds(alloc: Global, graph: Graph) -> Result<Graph, Memory>
    requires { IsSplit graph.nodes }
    ensures exact { IfOk result (IsLastRound graph) }
    ensures keeps { IfOk result (RoundKeeps graph) }
{
    let mut last = first_of(alloc, graph)?;
    let mut before = 0;
    'rounds: while last.changed && before < MOST_ROUNDS - 1 {
        let MadeRound {
            graph: made,
            flow,
            outline,
            ..
        } = last;
        let next = next_round(alloc, &made, flow, outline)?;
        last = next;
        before += 1;
    }
    Ok(last.graph)
}

/// The first round of a graph, which is let go.
fn first_of(alloc: Global, graph: Graph) -> Result<MadeRound, Memory>
    requires { IsSplit graph.nodes }
    ensures { IfOk result (IsMadeRound graph) }
{
    let made = first_round(alloc, &graph)?;
    Ok(made)
}

/// A round with what is known of its layout, and with its edges and its blocks, where they are still there.
#[derive(Drop)]
struct MadeRound {
    graph: Graph,
    flow: Option<GraphFlow>,
    outline: Outline,
    changed: bool,
}

/// The first round of a graph.
fn first_round(alloc: Global, graph: &Graph) -> Result<MadeRound, Memory>
    requires { IsSplit graph.now.nodes }
    ensures { IfOk result (IsMadeRound graph.now) }
{
    let made = next_round(alloc, graph, None, Outline::of(graph))?;
    Ok(made)
}

/// One round on a graph, whose edges and blocks are `flow`, where it has some, and of whose layout this is known.
fn next_round(
    alloc: Global,
    graph: &Graph,
    flow: Option<GraphFlow>,
    known: Outline,
) -> Result<MadeRound, Memory>
    requires split { IsSplit graph.now.nodes }
    requires flow { MayBeFlow graph.now.nodes flow }
    requires known { IsOutlineOf graph.now known }
    ensures { IfOk result (IsMadeRound graph.now) }
{
    let _nodes = graph.nodes();
    let _shared = graph.shared();
    let pruned = sunk_and_pruned(alloc, graph, flow)?;
    let PrunedRound { graph: made, flow } = pruned;
    let _made = made.nodes();
    let compared = compare(alloc, graph, known, &made, flow)?;
    Ok(MadeRound {
        graph: made,
        flow: compared.flow,
        outline: compared.outline,
        changed: compared.changed,
    })
}

/// A round with its edges and its blocks.
#[derive(Drop)]
struct PrunedRound {
    graph: Graph,
    flow: GraphFlow,
}

/// The graph whose assignments have sunk, without the dead ones. These leave its edges and blocks as they are.
fn sunk_and_pruned(
    alloc: Global,
    graph: &Graph,
    flow: Option<GraphFlow>,
) -> Result<PrunedRound, Memory>
    requires split { IsSplit graph.now.nodes }
    requires flow { MayBeFlow graph.now.nodes flow }
    ensures { IfOk result (IsPrunedRound graph.now) }
{
    let sunk = sunk_by(alloc, graph, flow)?;
    let flow = GraphFlow::of(alloc, &sunk)?;
    let pruned = pruned(alloc, sunk, &flow)?;
    let _nodes = pruned.nodes();
    Ok(PrunedRound {
        graph: pruned,
        flow,
    })
}

/// The graph whose assignments have sunk. The edges and the blocks of the graph before are let go, so that those of two
/// graphs do not stand in memory at once.
fn sunk_by(alloc: Global, graph: &Graph, flow: Option<GraphFlow>) -> Result<Graph, Memory>
    requires split { IsSplit graph.now.nodes }
    requires flow { MayBeFlow graph.now.nodes flow }
    ensures exact { IfOk result (IsSunk graph.now) }
    ensures keeps { IfOk result (RoundKeeps graph.now) }
{
    let flow = flow_of(alloc, graph, flow)?;
    let sunk = sunk(alloc, graph, &flow)?;
    Ok(sunk)
}

/// The edges and the blocks of a graph, which are made where it has none.
fn flow_of(alloc: Global, graph: &Graph, flow: Option<GraphFlow>) -> Result<GraphFlow, Memory>
    requires { MayBeFlow graph.now.nodes flow }
    ensures { IfOk result (IsFlowOf graph.now.nodes) }
{
    match flow {
        Some(flow) => Ok(flow),
        None => {
            let flow = GraphFlow::of(alloc, graph)?;
            Ok(flow)
        }
    }
}
