// What the motion of divisions finds out of a split graph, as rows with one row for each node, or for each edge, and
// one bit for each expression. Each function fails only with `Memory`.
ghost use Rattle.std.specs.Prelude.{◌≡◌, IfOk};
ghost use Rattle.flow_graph.specs.Edges.{IsSplit, edges_of};
ghost use Rattle.motion_rewrite.specs.Placements.{IsAnticipatable};
ghost use Rattle.motion_rewrite.specs.Rows.{AreRowsWhere};
ghost use Rattle.division_table.specs.Rows.{AreBoundRows, AreDivisionRows, AreSureRows, IsUnitDivision};

use bit_rows::Rows;
use div_move::MustReach;
use down_safe::{Busy, EveryPath, busy};
use edge_split::split_splits;
use flow_graph::Edges;
use latest_place::{Late, late};
use live_range::{Held, ranges};
use mir_base::Memory;
use mir_opt::MoveUnit;
use motion_rewrite::kill_rows;
use std::alloc::Global;

/// What the motion of divisions finds out.
#[derive(Drop)]
pub(crate) struct DivisionRows {
    /// By its own rule.
    pub(crate) sure: SureRows,
    /// Whatever the rule.
    pub(crate) bounds: BoundRows,
}

/// What it finds out by the rule of what a run is sure to come to.
#[derive(Drop)]
pub(crate) struct SureRows {
    /// Where an expression is used, available, sure to be come to, and earliest.
    pub(crate) busy: Busy,
    /// Where it is delayed, latest and isolated.
    pub(crate) late: Late,
    /// On which edges its temporary lives.
    pub(crate) held: Held,
}

/// What bounds the motion of an expression.
#[derive(Drop)]
pub(crate) struct BoundRows {
    /// Where it is killed.
    pub(crate) kills: Rows,
    /// Where every path evaluates it.
    pub(crate) anticipatable: Rows,
}

/// What the motion of divisions finds out of a unit.
pub(crate) fn division_rows(alloc: Global, unit: &MoveUnit) -> Result<DivisionRows, Memory>
    requires { IsUnitDivision unit.now }
    ensures { IfOk result (AreDivisionRows unit.now) }
{
    split_splits(&unit.cleaned, &unit.split);
    let edges = Edges::of(alloc, &unit.split)?;
    let sure = sure_rows(alloc, unit, &edges)?;
    let bounds = bound_rows(alloc, unit, &edges)?;
    Ok(DivisionRows { sure, bounds })
}

/// What it finds out by its own rule. The edges are those of the split graph.
fn sure_rows(alloc: Global, unit: &MoveUnit, edges: &Edges) -> Result<SureRows, Memory>
    requires division { IsUnitDivision unit.now }
    requires split { IsSplit unit.now.split.nodes }
    requires edges { edges.now ≡ edges_of unit.now.split.nodes }
    ensures { IfOk result (AreSureRows unit.now) }
{
    let busy = busy(alloc, &MustReach, &unit.split, edges, &unit.table)?;
    let late = late(alloc, &MustReach, &unit.split, edges, &unit.table, &busy)?;
    let held = ranges(
        alloc,
        &MustReach,
        &unit.split,
        edges,
        &unit.table,
        &unit.placement,
    )?;
    Ok(SureRows { busy, late, held })
}

/// What bounds the motion of its expressions. The edges are those of the split graph.
fn bound_rows(alloc: Global, unit: &MoveUnit, edges: &Edges) -> Result<BoundRows, Memory>
    requires split { IsSplit unit.now.split.nodes }
    requires edges { edges.now ≡ edges_of unit.now.split.nodes }
    ensures { IfOk result (AreBoundRows unit.now) }
{
    let kills = kill_rows(alloc, &unit.split, &unit.table)?;
    let anticipatable = anticipatable_rows(alloc, unit, edges)?;
    Ok(BoundRows {
        kills,
        anticipatable,
    })
}

/// Where each expression of the unit is anticipatable in its split graph, of which these are the edges.
fn anticipatable_rows(alloc: Global, unit: &MoveUnit, edges: &Edges) -> Result<Rows, Memory>
    requires split { IsSplit unit.now.split.nodes }
    requires edges { edges.now ≡ edges_of unit.now.split.nodes }
    ensures { IfOk result (AreRowsWhere unit.now.split unit.now.table
        (IsAnticipatable unit.now.split)) }
{
    let busy = busy(alloc, &EveryPath, &unit.split, edges, &unit.table)?;
    Ok(busy.anticipatable)
}
