// The columns of what the motion of divisions finds out: its rows and those of the placement, each turned once. Each
// function fails only with `Memory`.
ghost use Rattle.std.specs.Prelude.{◌≡◌, IfOk};
ghost use Rattle.division_table.specs.Columns.{AreDelayColumns, AreDivisionColumns, AreFlowColumns, ArePlacedColumns};

use crate::rows::{DivisionRows, SureRows};
use bit_rows::Rows;
use mir_base::Memory;
use motion_rewrite::Placement;
use std::alloc::Global;
use table_text::Columns;

/// The columns of all that the motion of divisions finds out, and of its placement.
#[derive(Drop)]
pub(crate) struct DivisionColumns {
    /// Where expressions are used and killed, and what comes to them.
    pub(crate) flow: FlowColumns,
    /// How far they can be delayed.
    pub(crate) delays: DelayColumns,
    /// Where the lazy placement inserts and replaces, and on which edges it holds temporaries.
    pub(crate) placed: PlacedColumns,
}

/// The columns of where expressions are used and killed, and of what comes to them.
#[derive(Drop)]
pub(crate) struct FlowColumns {
    /// Where an expression is used.
    pub(crate) uses: Columns,
    /// Where it is killed.
    pub(crate) kills: Columns,
    /// Where it is available.
    pub(crate) available: Columns,
    /// Where every path evaluates it.
    pub(crate) anticipatable: Columns,
    /// Where each run is sure to come to it.
    pub(crate) sure: Columns,
}

/// The columns of how far expressions can be delayed.
#[derive(Drop)]
pub(crate) struct DelayColumns {
    /// Where an expression is earliest.
    pub(crate) earliest: Columns,
    /// Where it is delayed.
    pub(crate) delayed: Columns,
    /// Where it is latest.
    pub(crate) latest: Columns,
    /// Where it is isolated.
    pub(crate) isolated: Columns,
}

/// The columns of the lazy placement, and of the edges on which temporaries live.
#[derive(Drop)]
pub(crate) struct PlacedColumns {
    /// Where it inserts the expression.
    pub(crate) inserted: Columns,
    /// Where it replaces it.
    pub(crate) replaced: Columns,
    /// On which edges it holds the temporary.
    pub(crate) held: Columns,
}

/// The columns of these rows and of this placement.
pub(crate) fn division_columns(
    alloc: Global,
    placement: &Placement,
    rows: &DivisionRows,
) -> Result<DivisionColumns, Memory>
    ensures { IfOk result (AreDivisionColumns placement.now rows.now) }
{
    let flow = flow_columns(alloc, rows)?;
    let delays = delay_columns(alloc, &rows.sure)?;
    let placed = placed_columns(alloc, placement, &rows.sure)?;
    Ok(DivisionColumns {
        flow,
        delays,
        placed,
    })
}

/// The columns of where expressions are used and killed, and of what comes to them.
fn flow_columns(alloc: Global, rows: &DivisionRows) -> Result<FlowColumns, Memory>
    ensures { IfOk result (AreFlowColumns rows.now) }
{
    let busy = &rows.sure.busy;
    let bounds = &rows.bounds;
    let (uses, kills) = two_columns(alloc, &busy.uses, &bounds.kills)?;
    let (available, anticipatable) = two_columns(alloc, &busy.available, &bounds.anticipatable)?;
    let sure = Columns::of(alloc, &busy.anticipatable)?;
    Ok(FlowColumns {
        uses,
        kills,
        available,
        anticipatable,
        sure,
    })
}

/// The columns of how far expressions can be delayed.
fn delay_columns(alloc: Global, rows: &SureRows) -> Result<DelayColumns, Memory>
    ensures { IfOk result (AreDelayColumns rows.now) }
{
    let (earliest, delayed) = two_columns(alloc, &rows.busy.earliest, &rows.late.delayed)?;
    let (latest, isolated) = two_columns(alloc, &rows.late.latest, &rows.late.isolated)?;
    Ok(DelayColumns {
        earliest,
        delayed,
        latest,
        isolated,
    })
}

/// The columns of the lazy placement, and of the edges on which temporaries live.
fn placed_columns(
    alloc: Global,
    placement: &Placement,
    rows: &SureRows,
) -> Result<PlacedColumns, Memory>
    ensures { IfOk result (ArePlacedColumns placement.now rows.now) }
{
    let (inserted, replaced) = two_columns(alloc, &placement.insert, &placement.replace)?;
    let held = Columns::of(alloc, &rows.held.edges)?;
    Ok(PlacedColumns {
        inserted,
        replaced,
        held,
    })
}

/// The columns of two sets of rows, so that few values are owned where a call can fail.
fn two_columns(alloc: Global, first: &Rows, second: &Rows) -> Result<(Columns, Columns), Memory>
    ensures { IfOk result (λ made. (made.0 ≡ first.now) × (made.1 ≡ second.now)) }
{
    let one = Columns::of(alloc, first)?;
    let other = Columns::of(alloc, second)?;
    Ok((one, other))
}
