// The stages of the passes, and the graph of a unit at each.
ghost use Rattle.std.specs.Prelude.{◌≡◌, ◌++◌, IfOk, OnOk};
ghost use Rattle.mir_base.specs.Appending.{AppendsOnOk};
ghost use Rattle.sink_rounds.specs.RoundGraphs.{last_round};
ghost use Rattle.mir_opt.specs.Stages.{after_rounds, before_rounds, first_rounds, graph_at, longest_rounds, move_graph_at, stage_name, stages_in};

use crate::{MoveUnit, Trail, UnitTrail};
use flow_graph::Graph;
use itoa::Buffer;
use mir_base::Memory;
use std::alloc::Global;

/// A stage of the passes of `optimise`, at which each unit has a graph.
#[derive(Clone, Copy, Debug, PartialEq, Eq)]
pub enum Stage {
    /// The graph of the source's unit.
    Lower,
    /// It has clean jumps.
    Clean,
    /// What is known stands in the place of what is computed.
    Fold,
    /// A variable stands in the place of a right side whose value it has already.
    Number,
    /// The sources of copies stand in their place.
    Copies,
    /// It has a Skip on each edge into a join.
    Split,
    /// Code is moved.
    Motion,
    /// The sources of copies stand in their place again.
    CopiesAfterMotion,
    /// Assignments have sunk in so many rounds.
    Round(usize),
    /// Its jumps are cleaned again.
    Result,
}

/// The stages of a trail, in their order; there are as many rounds as any unit had. It fails only with `Memory`.
pub fn stages_of(alloc: Global, trail: &Trail) -> Result<Vec<Stage>, Memory>
    ensures { IfOk result (λ stages. stages.items ≡ stages_in trail.now.units) }
{
    let mut stages = Vec::from_array(alloc, BEFORE_ROUNDS)?;
    put_rounds(&mut stages, longest_rounds(trail.units.items()))?;
    stages.push(Stage::Result)?;
    Ok(stages)
}

/// The stages before the rounds, in their order.
const BEFORE_ROUNDS: [Stage; 8] = [
    Stage::Lower,
    Stage::Clean,
    Stage::Fold,
    Stage::Number,
    Stage::Copies,
    Stage::Split,
    Stage::Motion,
    Stage::CopiesAfterMotion,
];

/// The stages before the rounds, in their order. It does not allocate.
pub fn before_rounds() -> &'static [Stage]
    ensures { result.now ≡ before_rounds }
{
    &BEFORE_ROUNDS
}

/// Appends the stages of so many rounds, from round 1 on.
fn put_rounds(stages: &mut Vec<Stage>, rounds: usize) -> Result<(), Memory>
    ensures { OnOk result (stages.new.items ≡ stages.old.items ++ first_rounds rounds) }
{
    for number in 0..rounds {
        stages.push(Stage::Round(number + 1))?;
    }
    Ok(())
}

/// The greatest number of rounds that any of these units had.
fn longest_rounds(units: &[UnitTrail]) -> usize
    ensures { result ≡ longest_rounds units.now }
{
    let mut most = 0;
    for unit in units {
        most = most.max(unit.rounds.graphs.items().len());
    }
    most
}

/// A stage of code motion alone, at which each unit has a graph.
#[derive(Clone, Copy, Debug, PartialEq, Eq)]
pub enum MoveStage {
    /// The graph of the source's unit.
    Lower,
    /// It has clean jumps.
    Clean,
    /// It has a Skip on each edge into a join.
    Split,
    /// Code is moved.
    Motion,
    /// Its jumps are cleaned again.
    Result,
}

impl Stage {
    /// Appends the name of the stage. It fails only with `Memory`.
    pub fn put_name(self, text: &mut Vec<u8>) -> Result<(), Memory>
        ensures { AppendsOnOk result text.old text.new (stage_name self) }
    {
        match self {
            Stage::Lower => text.extend_from_slice(b"lower"),
            Stage::Clean => text.extend_from_slice(b"clean"),
            Stage::Fold => text.extend_from_slice(b"fold"),
            Stage::Number => text.extend_from_slice(b"number"),
            Stage::Copies => text.extend_from_slice(b"copies"),
            Stage::Split => text.extend_from_slice(b"split"),
            Stage::Motion => text.extend_from_slice(b"motion"),
            Stage::CopiesAfterMotion => text.extend_from_slice(b"copies after motion"),
            Stage::Round(count) => {
                let mut buffer = Buffer::new();
                text.extend_from_slice(b"round ")?;
                text.extend_from_slice(buffer.format(count).as_bytes())
            }
            Stage::Result => text.extend_from_slice(b"result"),
        }
    }
}

impl UnitTrail {
    /// The graph at a stage. A unit with fewer rounds shows its last one. It does not allocate.
    pub fn graph(&self, stage: Stage) -> &Graph
        ensures { result.now ≡ graph_at self.now stage }
    {
        match stage {
            Stage::Lower => &self.lowered,
            Stage::Clean => &self.cleaned,
            Stage::Fold => &self.folded,
            Stage::Number => &self.numbered,
            Stage::Copies => &self.copied,
            Stage::Split => &self.split,
            Stage::Motion => &self.moved,
            Stage::CopiesAfterMotion => &self.recopied,
            Stage::Round(count) => after_rounds(&self.recopied, self.rounds.graphs.items(), count),
            Stage::Result => &self.swept,
        }
    }
}

impl MoveUnit {
    /// The graph at a stage. It does not allocate.
    pub fn graph(&self, stage: MoveStage) -> &Graph
        ensures { result.now ≡ move_graph_at self.now stage }
    {
        match stage {
            MoveStage::Lower => &self.lowered,
            MoveStage::Clean => &self.cleaned,
            MoveStage::Split => &self.split,
            MoveStage::Motion => &self.moved,
            MoveStage::Result => &self.swept,
        }
    }
}

/// The graph after so many rounds; after the last one it stays. It does not allocate.
fn after_rounds<'a>(graph: &'a Graph, rounds: &'a [Graph], count: usize) -> &'a Graph
    ensures { result.now ≡ after_rounds graph.now rounds.now count }
{
    if count == 0 {
        return graph;
    }
    if count < rounds.len() {
        return &rounds[count - 1];
    }
    last_round(graph, rounds)
}

/// The graph after all of these rounds. It does not allocate.
pub(crate) fn last_round<'a>(graph: &'a Graph, rounds: &'a [Graph]) -> &'a Graph
    ensures { result.now ≡ last_round graph.now rounds.now }
{
    match rounds.last() {
        None => graph,
        Some(last) => last,
    }
}
