// The steps of code motion alone on one unit, and those of the motion of divisions.
ghost use Rattle.mir_opt.specs.Best.{DivisionsAreBest};
ghost use Rattle.mir_opt.specs.Links.{LinksDivision, LinksMove};
ghost use Rattle.mir_opt.specs.Made.{MoveBest};
ghost use Rattle.mir_opt.specs.OneLaws.{division_is_one, move_is_one};
ghost use Rattle.mir_opt.specs.Stages.{MotionCleansWithin, move_graph_at};

use crate::front::lower_clean;
use crate::moving::{move_code, move_divisions};
use crate::steps::UnitSteps;
use crate::{MoveStage, MoveUnit};
use down_safe::EveryPath;
use flow_graph::Graph;
use jump_clean::clean;
use mir_base::{Memory, Unit as MirUnit};
use std::alloc::Global;

/// The steps of `motion`.
pub(crate) struct CodeMotion;

impl UnitSteps for CodeMotion {
    type Unit = MoveUnit;

    type Stage = MoveStage;

    ghost graph_at = { move_graph_at };

    ghost linked = { LinksMove };

    ghost best = { MoveBest };

    ghost within = { MotionCleansWithin };

    fn make(alloc: Global, source: &MirUnit) -> Result<MoveUnit, Memory> {
        let start = lower_clean(alloc, source)?;
        let code = move_code(alloc, &EveryPath, &start.cleaned)?;
        let swept = clean(alloc, &code.moved)?;
        let _nodes = code.moved.nodes();
        Ok(MoveUnit {
            lowered: start.lowered,
            cleaned: start.cleaned,
            split: code.split,
            table: code.table,
            placement: code.placement,
            moved: code.moved,
            swept,
        })
    }

    fn graph_of<'a>(unit: &'a MoveUnit, stage: &MoveStage) -> &'a Graph {
        unit.graph(*stage)
    }

    ghost one = { move_is_one };
}

/// The steps of `divisions`.
pub(crate) struct DivisionMotion;

impl UnitSteps for DivisionMotion {
    type Unit = MoveUnit;

    type Stage = MoveStage;

    ghost graph_at = { move_graph_at };

    ghost linked = { LinksDivision };

    ghost best = { λ source unit. DivisionsAreBest unit };

    ghost within = { MotionCleansWithin };

    fn make(alloc: Global, source: &MirUnit) -> Result<MoveUnit, Memory> {
        let start = lower_clean(alloc, source)?;
        let code = move_divisions(alloc, &start.cleaned)?;
        let swept = clean(alloc, &code.moved)?;
        let _nodes = code.moved.nodes();
        Ok(MoveUnit {
            lowered: start.lowered,
            cleaned: start.cleaned,
            split: code.split,
            table: code.table,
            placement: code.placement,
            moved: code.moved,
            swept,
        })
    }

    fn graph_of<'a>(unit: &'a MoveUnit, stage: &MoveStage) -> &'a Graph {
        unit.graph(*stage)
    }

    ghost one = { division_is_one };
}
