// The calls of this crate: each takes all units of a program through the steps of its command.
ghost use Rattle.std.specs.Prelude.{◌≡◌, All, IfOk};
ghost use Rattle.mir_opt.specs.Best.{DivisionsAreBest, MotionIsBest, MovesBest, RoundsAreBest, SinksNoMore};
ghost use Rattle.mir_opt.specs.Divisions.{DivisionsReachTarget, DivisionsStay, MotionKeepsDivisions};
ghost use Rattle.mir_opt.specs.Links.{IsDivisionLinked, IsLinked, IsMoveLinked, IsOnlyDivisionTrail, IsOnlyMoveTrail, IsOnlyTrail};
ghost use Rattle.mir_opt.specs.Stages.{AllKeep, AreLaid, KeepsProgram, graph_at, move_graph_at};

use crate::chain::Optimising;
use crate::motions::{CodeMotion, DivisionMotion};
use crate::over_units::{program_at, program_steps};
use crate::{MoveStage, MoveTrail, Stage, Trail};
use mir_base::{Memory, Program};
use std::alloc::Global;

/// What the passes make of the program: for each unit its graph, what each pass makes of it in turn, and the unit that
/// is the layout of the last graph. Source and target are the same program. The passes have no limits of their own: it
/// fails only with `Memory`.
pub fn optimise(alloc: Global, program: &Program) -> Result<Trail, Memory>
    // The trail of this program: each part is the exact result of its pass, and there is no other such trail.
    ensures source { IfOk result (λ trail. trail.source ≡ program.now) }
    ensures linked { IfOk result IsLinked }
    ensures only { IfOk result (IsOnlyTrail program.now) }

    // The target is the same program, as a whole and unit by unit, evaluates no more operators, never has more frames,
    // and calls no units but those that the program calls. So it would be at each stage.
    ensures keeps { IfOk result (λ trail. KeepsProgram program.now trail.target) }
    ensures stages { IfOk result (λ trail. AllKeep graph_at trail.source.units trail.units) }

    // In each unit no admissible placement evaluates an expression less often on any full path.
    ensures best { IfOk result (λ trail. All MovesBest trail.units) }

    // On no full path the rounds of sinking together leave more of any plain or movable assignment.
    ensures sinks { IfOk result (λ trail. All SinksNoMore trail.units) }

    // On no full path does a single step leave fewer of one than the round of sinking from the same graph. And where
    // the rounds come to rest, no list of steps from the graph before them, of any length, leaves fewer of one on any
    // full path than the last round does, or lighter ones.
    ensures rounds { IfOk result (λ trail. All RoundsAreBest trail.units) }

    // Each dividing instruction of the source that is reached is one of the target, with its variable and its operator,
    // unless its divisor is known and not 0, and no two are one. So it is from graph to graph.
    ensures divisions { IfOk result DivisionsReachTarget }
    ensures stay { IfOk result (λ trail. All DivisionsStay trail.units) }
{
    let steps = program_steps::<Optimising>(alloc, program, &Stage::Result)?;
    Ok(Trail {
        source: steps.source,
        units: steps.units,
        target: steps.target,
    })
}

/// What code motion alone makes of the program: for each unit its graph, this graph with clean jumps, the steps of code
/// motion on it, and the unit that is the layout of the last graph. Source and target are the same program. There are
/// no limits: it fails only with `Memory`.
pub fn motion(alloc: Global, program: &Program) -> Result<MoveTrail, Memory>
    // The move trail of this program: each part is the exact result of its pass, and there is no other such trail.
    ensures source { IfOk result (λ trail. trail.source ≡ program.now) }
    ensures linked { IfOk result IsMoveLinked }
    ensures only { IfOk result (IsOnlyMoveTrail program.now) }

    // The target is the same program, as a whole and unit by unit, evaluates no more operators, never has more frames,
    // and calls no units but those that the program calls. So it would be at each stage.
    ensures keeps { IfOk result (λ trail. KeepsProgram program.now trail.target) }
    ensures stages { IfOk result (λ trail. AllKeep move_graph_at trail.source.units trail.units) }

    // In each unit no admissible placement evaluates an expression less often on any full path.
    ensures best { IfOk result (λ trail. All MotionIsBest trail.units) }

    // Each dividing instruction of the source that is reached is one of the target, with its variable, its operator and
    // its operands, and no two are one.
    ensures divisions { IfOk result MotionKeepsDivisions }
{
    let steps = program_steps::<CodeMotion>(alloc, program, &MoveStage::Result)?;
    Ok(MoveTrail {
        source: steps.source,
        units: steps.units,
        target: steps.target,
    })
}

/// What moving the divisions alone makes of the program: for each unit its graph, this graph with clean jumps, the steps
/// of moving its divisions, and the unit that is the layout of the last graph. Source and target are the same program,
/// which traps alike. There are no limits: it fails only with `Memory`.
pub fn divisions(alloc: Global, program: &Program) -> Result<MoveTrail, Memory>
    // The division trail of this program: each part is the exact result of its pass, and there is no other such trail.
    ensures source { IfOk result (λ trail. trail.source ≡ program.now) }
    ensures linked { IfOk result IsDivisionLinked }
    ensures only { IfOk result (IsOnlyDivisionTrail program.now) }

    // The target is the same program, as a whole and unit by unit, evaluates no more operators, never has more frames,
    // and calls no units but those that the program calls. So it would be at each stage.
    ensures keeps { IfOk result (λ trail. KeepsProgram program.now trail.target) }
    ensures stages { IfOk result (λ trail. AllKeep move_graph_at trail.source.units trail.units) }

    // In each unit no placement that is admissible by the rule of divisions evaluates one less often on any full path,
    // and each is inserted only where a run is sure to come to that very division.
    ensures best { IfOk result (λ trail. All DivisionsAreBest trail.units) }
{
    let steps = program_steps::<DivisionMotion>(alloc, program, &MoveStage::Result)?;
    Ok(MoveTrail {
        source: steps.source,
        units: steps.units,
        target: steps.target,
    })
}

/// The program with the globals of the source whose units are the layouts of the graphs at a stage. It is the same as the
/// source, unit by unit, evaluates no more operators, never has more frames, and calls no units but those that the source
/// calls. At each stage the graph of each unit keeps the unit of the source, as in every trail that `optimise` makes. It
/// fails only with `Memory`.
pub fn stage_program(alloc: Global, trail: &Trail, stage: Stage) -> Result<Program, Memory>
    requires { AllKeep graph_at trail.now.source.units trail.now.units }
    ensures laid { IfOk result (λ program. AreLaid graph_at stage trail.now.units program.units) }
    ensures globals { IfOk result (λ program. program.globals ≡ trail.now.source.globals) }
    ensures keeps { IfOk result (λ program. KeepsProgram trail.now.source program) }
{
    let program = program_at::<Optimising>(alloc, &trail.source, trail.units.items(), &stage)?;
    Ok(program)
}
