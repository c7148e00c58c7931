// The chain of all passes on one unit.
ghost use Rattle.mir_opt.specs.Links.{LinksUnit};
ghost use Rattle.mir_opt.specs.Made.{UnitBest};
ghost use Rattle.mir_opt.specs.OneLaws.{unit_is_one};
ghost use Rattle.mir_opt.specs.Stages.{CleansWithin, graph_at};

use crate::back::make_back;
use crate::front::make_front;
use crate::moving::move_code;
use crate::steps::UnitSteps;
use crate::{Stage, UnitTrail};
use down_safe::EveryPath;
use flow_graph::Graph;
use mir_base::{Memory, Unit as MirUnit};
use std::alloc::Global;

/// The steps of `optimise`.
pub(crate) struct Optimising;

impl UnitSteps for Optimising {
    type Unit = UnitTrail;

    type Stage = Stage;

    ghost graph_at = { graph_at };

    ghost linked = { LinksUnit };

    ghost best = { UnitBest };

    ghost within = { CleansWithin };

    fn make(alloc: Global, source: &MirUnit) -> Result<UnitTrail, Memory> {
        let front = make_front(alloc, source)?;
        let code = move_code(alloc, &EveryPath, &front.values.copied)?;
        let back = make_back(alloc, &code.moved)?;
        Ok(UnitTrail {
            lowered: front.start.lowered,
            cleaned: front.start.cleaned,
            folded: front.values.folded,
            numbered: front.values.numbered,
            copied: front.values.copied,
            split: code.split,
            table: code.table,
            placement: code.placement,
            moved: code.moved,
            recopied: back.recopied,
            rounds: back.rounds,
            swept: back.swept,
        })
    }

    fn graph_of<'a>(unit: &'a UnitTrail, stage: &Stage) -> &'a Graph {
        unit.graph(*stage)
    }

    ghost one = { unit_is_one };
}
