// What code motion finds out of a split graph. Each function fails only with `Memory`.
ghost use Rattle.std.specs.Prelude.{◌≡◌, IfOk, OnOk};
ghost use Rattle.mir_base.specs.Appending.{AppendsOnOk};
ghost use Rattle.flow_graph.specs.Edges.{IsSplit, edges_of};
ghost use Rattle.motion_rewrite.specs.Placements.{IsAnticipatable};
ghost use Rattle.down_safe.specs.Busy.{AreBusyRows};
ghost use Rattle.down_safe.specs.BusyPlaces.{placement_of};
ghost use Rattle.live_range.specs.Held.{AreHeldEdges};
ghost use Rattle.table_text.specs.Rows.{HaveBit};
ghost use Rattle.table_text.specs.Turns.{AppendsSome};
ghost use Rattle.pass_table.specs.MotionLines.{TellMotion, busy_of, late_of, placement_of_lines, rows_of_lines};
ghost use Rattle.pass_table.specs.Motion.{AreBoundRows, AreBusyRanges, AreMotionRows, ArePlaceRows, HaveBusyBit, HaveLateBit, HaveMotionBit, IsMotionText, busy_lines, late_lines, lazy_lines, motion_lines, safe_lines};
ghost use Rattle.pass_table.specs.Units.{IsUnitMotion};

use crate::motion_lines::{MotionLines, motion_lines_of};
use bit_rows::Rows;
use down_safe::{Busy, EveryPath, busy, busy_admits};
use edge_split::split_splits;
use expression_table::{ExpressionRows, MovedExpressions, put_expressions};
use flow_graph::Edges;
use latest_place::{Late, late};
use live_range::{Held, held_edges, ranges};
use mir_base::Memory;
use mir_opt::UnitTrail;
use motion_rewrite::{Placement, kill_rows};
use std::alloc::Global;
use table_text::{put_bits, put_edge_bits};

/// What code motion finds out of the expressions of a unit: each has one row for each node, or for each edge, and one
/// bit for each expression.
#[derive(Drop)]
pub(crate) struct MotionRows {
    /// Where expressions are safe, how far they can be delayed, and what the busy placement holds.
    pub(crate) places: PlaceRows,
    /// Where they are killed, and on which edges their temporaries live under the lazy placement.
    pub(crate) bounds: BoundRows,
}

/// Where expressions are safe, how far they can be delayed, and what the busy placement holds.
#[derive(Drop)]
pub(crate) struct PlaceRows {
    /// Where an expression is used, available, anticipatable and earliest.
    pub(crate) busy: Busy,
    /// Where it is delayed, latest and isolated.
    pub(crate) late: Late,
    /// On which edges its temporary lives under the busy placement.
    pub(crate) busy_held: Held,
}

/// The rows of the busy placement, and on which edges its temporaries live.
#[derive(Drop)]
pub(crate) struct BusyRanges {
    /// Where an expression is used, available, anticipatable and earliest.
    pub(crate) busy: Busy,
    /// On which edges its temporary lives.
    pub(crate) held: Held,
}

/// Where expressions are killed, and on which edges their temporaries live under the lazy placement.
#[derive(Drop)]
pub(crate) struct BoundRows {
    /// Where an expression is killed.
    pub(crate) kills: Rows,
    /// On which edges its temporary lives under the lazy placement.
    pub(crate) held: Held,
}

/// Appends the expressions of a unit, each with what code motion finds out of it.
pub(crate) fn put_motion(alloc: Global, text: &mut Vec<u8>, unit: &UnitTrail) -> Result<(), Memory>
    requires { IsUnitMotion unit.now }
    ensures { OnOk result (AppendsSome (IsMotionText unit.now) text.old text.new) }
{
    let lines = lines_found(alloc, unit)?;
    let moves = MovedExpressions {
        split: &unit.split,
        moved: &unit.moved,
        table: &unit.table,
        insert: &unit.placement.insert,
    };
    put_expressions(alloc, text, &moves, &lines)?;
    Ok(())
}

/// The lines of what code motion finds out of a unit, and of its placement.
fn lines_found(alloc: Global, unit: &UnitTrail) -> Result<MotionLines, Memory>
    requires { IsUnitMotion unit.now }
    ensures { IfOk result (TellMotion unit.now) }
{
    let rows = motion_rows(alloc, unit)?;
    let lines = motion_lines_of(alloc, &unit.placement, &rows)?;
    Ok(lines)
}

/// What code motion finds out of a unit.
fn motion_rows(alloc: Global, unit: &UnitTrail) -> Result<MotionRows, Memory>
    requires { IsUnitMotion unit.now }
    ensures { IfOk result (AreMotionRows unit.now) }
{
    split_splits(&unit.copied, &unit.split);
    let edges = Edges::of(alloc, &unit.split)?;
    let places = place_rows(alloc, unit, &edges)?;
    let bounds = bound_rows(alloc, unit, &edges)?;
    Ok(MotionRows { places, bounds })
}

/// Where the expressions of a unit are safe, how far they can be delayed, and on which edges their temporaries live
/// under the busy placement. The edges are those of the split graph.
fn place_rows(alloc: Global, unit: &UnitTrail, edges: &Edges) -> Result<PlaceRows, Memory>
    requires split { IsSplit unit.now.split.nodes }
    requires edges { edges.now ≡ edges_of unit.now.split.nodes }
    ensures { IfOk result (ArePlaceRows unit.now) }
{
    let busy = busy(alloc, &EveryPath, &unit.split, edges, &unit.table)?;
    let late = late(alloc, &EveryPath, &unit.split, edges, &unit.table, &busy)?;
    let ranges = busy_ranges(alloc, unit, edges, busy)?;
    Ok(PlaceRows {
        busy: ranges.busy,
        late,
        busy_held: ranges.held,
    })
}

/// On which edges the temporaries of a unit live under the busy placement, beside the rows of it, which make a
/// placement for as long as this is worked out. The edges are those of the split graph.
fn busy_ranges(
    alloc: Global,
    unit: &UnitTrail,
    edges: &Edges,
    busy: Busy,
) -> Result<BusyRanges, Memory>
    requires split { IsSplit unit.now.split.nodes }
    requires edges { edges.now ≡ edges_of unit.now.split.nodes }
    requires busy { AreBusyRows unit.now.split unit.now.table
        (IsAnticipatable unit.now.split) busy }
    ensures { IfOk result (AreBusyRanges unit.now) }
{
    busy_admits(&EveryPath, &unit.split, &unit.table, &busy);
    let placement = Placement {
        insert: busy.earliest,
        replace: busy.uses,
    };
    let held = held_edges(
        alloc,
        &EveryPath,
        &unit.split,
        edges,
        &unit.table,
        &placement,
    )?;
    let busy = Busy {
        uses: placement.replace,
        available: busy.available,
        anticipatable: busy.anticipatable,
        earliest: placement.insert,
    };
    Ok(BusyRanges { busy, held })
}

/// Where the expressions of a unit are killed, and on which edges their temporaries live under the lazy placement. The
/// edges are those of the split graph.
fn bound_rows(alloc: Global, unit: &UnitTrail, edges: &Edges) -> Result<BoundRows, Memory>
    requires motion { IsUnitMotion unit.now }
    requires split { IsSplit unit.now.split.nodes }
    requires edges { edges.now ≡ edges_of unit.now.split.nodes }
    ensures { IfOk result (AreBoundRows unit.now) }
{
    let kills = kill_rows(alloc, &unit.split, &unit.table)?;
    let held = lazy_held(alloc, unit, edges)?;
    Ok(BoundRows { kills, held })
}

/// On which edges the temporaries of a unit live under its lazy placement. The edges are those of the split graph.
fn lazy_held(alloc: Global, unit: &UnitTrail, edges: &Edges) -> Result<Held, Memory>
    requires motion { IsUnitMotion unit.now }
    requires split { IsSplit unit.now.split.nodes }
    requires edges { edges.now ≡ edges_of unit.now.split.nodes }
    ensures { IfOk result (λ held. AreHeldEdges unit.now.split unit.now.table
        unit.now.placement held.edges) }
{
    let held = ranges(
        alloc,
        &EveryPath,
        &unit.split,
        edges,
        &unit.table,
        &unit.placement,
    )?;
    Ok(held)
}

impl ExpressionRows for MotionLines {
    ghost lines = { λ s. motion_lines (placement_of_lines s) (rows_of_lines s) };

    ghost has = { λ s. HaveMotionBit (placement_of_lines s) (rows_of_lines s) };

    fn put(&self, text: &mut Vec<u8>, number: usize) -> Result<(), Memory> {
        put_safe(text, self, number)?;
        put_late(text, self, number)?;
        put_busy(text, self, number)?;
        put_lazy(text, self, number)
    }
}

/// Appends where an expression is used and killed, and where it is safe.
fn put_safe(text: &mut Vec<u8>, lines: &MotionLines, number: usize) -> Result<(), Memory>
    requires kills { HaveBit lines.now.safe.kills number }
    requires busy { HaveBusyBit (busy_of lines.now) number }
    ensures { AppendsOnOk result text.old text.new (safe_lines (rows_of_lines lines.now) number) }
{
    let safe = &lines.safe;
    put_bits(text, &safe.uses, number, b"used")?;
    put_bits(text, &safe.kills, number, b"killed")?;
    put_bits(text, &safe.available, number, b"available")?;
    put_bits(text, &safe.anticipatable, number, b"anticipatable")?;
    put_bits(text, &safe.earliest, number, b"earliest")?;
    Ok(())
}

/// Appends how far its evaluations can be delayed.
fn put_late(text: &mut Vec<u8>, lines: &MotionLines, number: usize) -> Result<(), Memory>
    requires { HaveLateBit (late_of lines.now) number }
    ensures { AppendsOnOk result text.old text.new (late_lines (late_of lines.now) number) }
{
    put_bits(text, &lines.late.delayed, number, b"delayed")?;
    put_bits(text, &lines.late.latest, number, b"latest")?;
    put_bits(text, &lines.late.isolated, number, b"isolated")
}

/// Appends the busy placement of it, and on which edges its temporary lives.
fn put_busy(text: &mut Vec<u8>, lines: &MotionLines, number: usize) -> Result<(), Memory>
    requires busy { HaveBusyBit (busy_of lines.now) number }
    requires held { HaveBit lines.now.placed.busy_held number }
    ensures { AppendsOnOk result text.old text.new
        (busy_lines (rows_of_lines lines.now).places number) }
{
    put_bits(text, &lines.safe.earliest, number, b"busy inserted")?;
    put_bits(text, &lines.safe.uses, number, b"busy replaced")?;
    put_edge_bits(text, &lines.placed.busy_held, number, b"busy held")
}

/// Appends the lazy placement of it, and on which edges its temporary lives.
fn put_lazy(text: &mut Vec<u8>, lines: &MotionLines, number: usize) -> Result<(), Memory>
    requires { HaveMotionBit (placement_of_lines lines.now) (rows_of_lines lines.now) number }
    ensures { AppendsOnOk result text.old text.new
        (lazy_lines (placement_of_lines lines.now) (rows_of_lines lines.now) number) }
{
    put_bits(text, &lines.placed.insert, number, b"inserted")?;
    put_bits(text, &lines.placed.replace, number, b"replaced")?;
    put_edge_bits(text, &lines.placed.held, number, b"held")
}
