// The lines of what code motion finds out: its rows and those of the placement, each turned into columns once. Each
// function fails only with `Memory`.
ghost use Rattle.std.specs.Prelude.{◌≡◌, IfOk};
ghost use Rattle.pass_table.specs.MotionLines.{AreLateLines, AreMotionLines, ArePlacedLines, AreSafeLines};

use crate::motion::MotionRows;
use bit_rows::Rows;
use latest_place::Late;
use mir_base::Memory;
use motion_rewrite::Placement;
use std::alloc::Global;
use table_text::Columns;

/// The lines of all that code motion finds out of the expressions of a unit, and of its placement.
#[derive(Drop)]
pub(crate) struct MotionLines {
    /// Where expressions are used and killed, and where they are safe.
    pub(crate) safe: SafeLines,
    /// How far they can be delayed.
    pub(crate) late: LateLines,
    /// Where the lazy placement inserts and replaces, and on which edges each placement holds temporaries.
    pub(crate) placed: PlacedLines,
}

/// The lines of where expressions are used and killed, and where they are safe.
#[derive(Drop)]
pub(crate) struct SafeLines {
    /// Where an expression is used; the busy placement replaces it there.
    pub(crate) uses: Columns,
    /// Where it is killed.
    pub(crate) kills: Columns,
    /// Where it is available.
    pub(crate) available: Columns,
    /// Where it is anticipatable.
    pub(crate) anticipatable: Columns,
    /// Where it is earliest; the busy placement inserts it there.
    pub(crate) earliest: Columns,
}

/// The lines of how far expressions can be delayed.
#[derive(Drop)]
pub(crate) struct LateLines {
    /// Where an expression is delayed.
    pub(crate) delayed: Columns,
    /// Where it is latest.
    pub(crate) latest: Columns,
    /// Where it is isolated.
    pub(crate) isolated: Columns,
}

/// The lines of the lazy placement, and of the edges on which temporaries live under each of the two placements.
#[derive(Drop)]
pub(crate) struct PlacedLines {
    /// On which edges the temporary of an expression lives under the busy placement.
    pub(crate) busy_held: Columns,
    /// Where the lazy placement inserts the expression.
    pub(crate) insert: Columns,
    /// Where it replaces it.
    pub(crate) replace: Columns,
    /// On which edges it holds the temporary.
    pub(crate) held: Columns,
}

/// The lines of these rows and of this placement.
pub(crate) fn motion_lines_of(
    alloc: Global,
    placement: &Placement,
    rows: &MotionRows,
) -> Result<MotionLines, Memory>
    ensures { IfOk result (AreMotionLines placement.now rows.now) }
{
    let safe = safe_lines_of(alloc, rows)?;
    let late = late_lines_of(alloc, &rows.places.late)?;
    let placed = placed_lines_of(alloc, placement, rows)?;
    Ok(MotionLines { safe, late, placed })
}

/// The lines of where expressions are used and killed, and where they are safe.
fn safe_lines_of(alloc: Global, rows: &MotionRows) -> Result<SafeLines, Memory>
    ensures { IfOk result (AreSafeLines rows.now) }
{
    let busy = &rows.places.busy;
    let (uses, kills) = two_lines(alloc, &busy.uses, &rows.bounds.kills)?;
    let (available, anticipatable) = two_lines(alloc, &busy.available, &busy.anticipatable)?;
    let earliest = Columns::of(alloc, &busy.earliest)?;
    Ok(SafeLines {
        uses,
        kills,
        available,
        anticipatable,
        earliest,
    })
}

/// The lines of how far expressions can be delayed.
fn late_lines_of(alloc: Global, late: &Late) -> Result<LateLines, Memory>
    ensures { IfOk result (AreLateLines late.now) }
{
    let (delayed, latest) = two_lines(alloc, &late.delayed, &late.latest)?;
    let isolated = Columns::of(alloc, &late.isolated)?;
    Ok(LateLines {
        delayed,
        latest,
        isolated,
    })
}

/// The lines of the lazy placement, and of the edges on which temporaries live under each of the two placements.
fn placed_lines_of(
    alloc: Global,
    placement: &Placement,
    rows: &MotionRows,
) -> Result<PlacedLines, Memory>
    ensures { IfOk result (ArePlacedLines placement.now rows.now) }
{
    let (insert, replace) = two_lines(alloc, &placement.insert, &placement.replace)?;
    let (busy_held, held) = two_lines(
        alloc,
        &rows.places.busy_held.edges,
        &rows.bounds.held.edges,
    )?;
    Ok(PlacedLines {
        busy_held,
        insert,
        replace,
        held,
    })
}

/// The lines of two sets of rows, so that few values are owned where a call can fail.
fn two_lines(alloc: Global, first: &Rows, second: &Rows) -> Result<(Columns, Columns), Memory>
    ensures { IfOk result (λ made. (made.0 ≡ first.now) × (made.1 ≡ second.now)) }
{
    let one = Columns::of(alloc, first)?;
    let other = Columns::of(alloc, second)?;
    Ok((one, other))
}
