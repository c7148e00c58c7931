// What a command makes of one unit.
ghost use Rattle.std.specs.Prelude.{◌≡◌, IfOk};
ghost use Rattle.mir_base.specs.Shapes.{UnitShape};
ghost use Rattle.flow_graph.specs.Graphs.{GraphShape};
ghost use Rattle.flow_graph.specs.Lowered.{CanLower};
ghost use Rattle.mir_opt.specs.Made.{UnitMade};
ghost use Rattle.mir_opt.specs.Links.{HasOneLink};

use flow_graph::Graph;
use mir_base::{Memory, Unit as MirUnit};
use std::alloc::Global;

/// The steps that a command makes of one unit, `Unit`, with a graph at each stage. `linked` says when steps are those of
/// a unit, and then they are the only ones, where the graphs that are cleaned lead to nodes (`within`); `best` says when
/// their code motion is the best, and what else the command says of the steps of a unit.
pub(crate) trait UnitSteps {
    /// What is made of one unit.
    type Unit: Drop;

    /// Names a stage of the command.
    type Stage;

    ghost graph_at: { Self.Unit → Self.Stage → GraphShape };

    ghost linked: { UnitShape → Self.Unit → Type 0 };

    ghost best: { UnitShape → Self.Unit → Type 0 };

    ghost within: { Self.Unit → Type 0 };

    /// Makes the steps of a unit. It fails only with `Memory`.
    fn make(alloc: Global, source: &MirUnit) -> Result<Self::Unit, Memory>
        requires { CanLower source.now.shared source.now.body }
        ensures { IfOk result (UnitMade graph_at linked best within source.now) };

    /// The graph at a stage. It does not allocate.
    fn graph_of<'a>(unit: &'a Self::Unit, stage: &Self::Stage) -> &'a Graph
        ensures { result.now ≡ graph_at unit.now stage.now };

    ghost one: { HasOneLink within linked };
}
