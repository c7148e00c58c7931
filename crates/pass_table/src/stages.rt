// The tables of one stage of a unit: what the pass finds out that makes its graph, and this graph. Each function fails
// only with `Memory`.
ghost use Rattle.std.specs.Prelude.{◌≡◌, ◌-◌, OnOk};
ghost use Rattle.mir_base.specs.Appending.{AppendsOnOk};
ghost use Rattle.flow_graph.specs.Edges.{edges_of};
ghost use Rattle.mir_opt.specs.declared.stages.Stage.TheVariants.{Round};
ghost use Rattle.mir_opt.specs.Stages.{graph_at};
ghost use Rattle.table_text.specs.Lines.{names_of_units};
ghost use Rattle.table_text.specs.Turns.{AppendsSome};
ghost use Rattle.pass_table.specs.Stages.{IsFound, IsFoundText, IsStageText, pass_line, shown_text, stage_line};
ghost use Rattle.pass_table.specs.Units.{IsUnitMotion};

use crate::copies::put_copies;
use crate::motion::put_motion;
use crate::patterns::{put_patterns, put_patterns_by};
use crate::states::put_states;
use crate::terms::put_terms;
use flow_graph::{Edges, Graph};
use mir_base::{Memory, Unit as MirUnit};
use mir_opt::{Stage, UnitTrail};
use std::alloc::Global;
use table_text::put_graph;

/// Appends what the pass finds out that makes a stage of a unit, and the graph at this stage. The units are those of
/// the program.
pub(crate) fn put_stage(
    alloc: Global,
    text: &mut Vec<u8>,
    units: &[MirUnit],
    unit: &UnitTrail,
    stage: Stage,
) -> Result<(), Memory>
    requires { IsUnitMotion unit.now }
    ensures { OnOk result (AppendsSome (IsStageText (names_of_units units.now) unit.now stage)
        text.old text.new) }
{
    put_finding(alloc, text, unit, stage)?;
    put_shown(text, units, unit, stage)?;
    Ok(())
}

/// Appends what the pass finds out that makes a stage of a unit, behind its name.
pub(crate) fn put_finding(
    alloc: Global,
    text: &mut Vec<u8>,
    unit: &UnitTrail,
    stage: Stage,
) -> Result<(), Memory>
    requires { IsUnitMotion unit.now }
    ensures { OnOk result (AppendsSome (IsFoundText unit.now stage) text.old text.new) }
{
    put_pass(text, stage)?;
    put_found(alloc, text, unit, stage)?;
    Ok(())
}

/// Appends what the pass finds out that makes the round of this number, counted from 1, behind its name; `edges` are
/// those of the graph before this round.
pub(crate) fn put_round_finding(
    alloc: Global,
    text: &mut Vec<u8>,
    unit: &UnitTrail,
    number: usize,
    edges: &Edges,
) -> Result<(), Memory>
    requires { edges.now ≡ edges_of (graph_at unit.now (Round (number - 1))).nodes }
    ensures { OnOk result (AppendsSome (IsFoundText unit.now (Round number)) text.old text.new) }
{
    put_pass(text, Stage::Round(number))?;
    put_patterns_by(alloc, text, before_round(unit, number), edges)?;
    Ok(())
}

/// Appends the graph at a stage of a unit, behind the name of the stage. The units are those of the program.
pub(crate) fn put_shown(
    text: &mut Vec<u8>,
    units: &[MirUnit],
    unit: &UnitTrail,
    stage: Stage,
) -> Result<(), Memory>
    ensures { AppendsOnOk result text.old text.new
        (shown_text (names_of_units units.now) unit.now stage) }
{
    put_title(text, stage)?;
    put_graph(text, units, unit.graph(stage))
}

/// Appends the line with the name of the pass that makes a stage; none makes the first.
fn put_pass(text: &mut Vec<u8>, stage: Stage) -> Result<(), Memory>
    ensures { AppendsOnOk result text.old text.new (pass_line stage) }
{
    match stage {
        Stage::Lower => Ok(()),
        Stage::Clean => text.extend_from_slice(b"pass clean\n"),
        Stage::Fold => text.extend_from_slice(b"pass fold\n"),
        Stage::Number => text.extend_from_slice(b"pass number\n"),
        Stage::Copies => text.extend_from_slice(b"pass copies\n"),
        Stage::Split => text.extend_from_slice(b"pass split\n"),
        Stage::Motion => text.extend_from_slice(b"pass motion\n"),
        Stage::CopiesAfterMotion => text.extend_from_slice(b"pass copies\n"),
        Stage::Round(_) => text.extend_from_slice(b"pass sink\n"),
        Stage::Result => text.extend_from_slice(b"pass clean\n"),
    }
}

/// Appends what the pass finds out that makes a stage, of the graph that goes in.
fn put_found(
    alloc: Global,
    text: &mut Vec<u8>,
    unit: &UnitTrail,
    stage: Stage,
) -> Result<(), Memory>
    requires { IsUnitMotion unit.now }
    ensures { OnOk result (AppendsSome (IsFound unit.now stage) text.old text.new) }
{
    match stage {
        Stage::Lower => Ok(()),
        Stage::Clean => Ok(()),
        Stage::Fold => put_states(alloc, text, &unit.cleaned),
        Stage::Number => put_terms(alloc, text, &unit.folded),
        Stage::Copies => put_copies(alloc, text, &unit.numbered),
        Stage::Split => Ok(()),
        Stage::Motion => put_motion(alloc, text, unit),
        Stage::CopiesAfterMotion => put_copies(alloc, text, &unit.moved),
        Stage::Round(number) => put_patterns(alloc, text, before_round(unit, number)),
        Stage::Result => Ok(()),
    }
}

/// The graph before the round of this number, from 1 on.
fn before_round(unit: &UnitTrail, number: usize) -> &Graph
    ensures { result.now ≡ graph_at unit.now (Round (number - 1)) }
{
    unit.graph(Stage::Round(number.max(1) - 1))
}

/// Appends the line with the name of a stage.
fn put_title(text: &mut Vec<u8>, stage: Stage) -> Result<(), Memory>
    ensures { AppendsOnOk result text.old text.new (stage_line stage) }
{
    text.extend_from_slice(b"stage ")?;
    stage.put_name(text)?;
    text.extend_from_slice(b"\n")
}
