// The lines of the expressions of a unit whose divisions move. Each function fails only with `Memory`.
ghost use Rattle.std.specs.Prelude.{IfOk, OnOk};
ghost use Rattle.mir_base.specs.Appending.{AppendsOnOk};
ghost use Rattle.table_text.specs.Turns.{AppendsSome};
ghost use Rattle.division_table.specs.Expressions.{HaveColumnsBit, IsExpressionsText, TellDivisions, column_lines, delay_lines, flow_lines, placed_lines};
ghost use Rattle.division_table.specs.Rows.{IsUnitDivision};

use crate::columns::{DivisionColumns, division_columns};
use crate::rows::division_rows;
use expression_table::{ExpressionRows, MovedExpressions, put_expressions};
use mir_base::Memory;
use mir_opt::MoveUnit;
use std::alloc::Global;
use table_text::{put_bits, put_edge_bits};

/// Appends the divisions of a unit, each with what the motion of divisions finds out of it.
pub(crate) fn put_divisions(
    alloc: Global,
    text: &mut Vec<u8>,
    unit: &MoveUnit,
) -> Result<(), Memory>
    requires { IsUnitDivision unit.now }
    ensures { OnOk result (AppendsSome (IsExpressionsText unit.now) text.old text.new) }
{
    let columns = columns_found(alloc, unit)?;
    let moves = MovedExpressions {
        split: &unit.split,
        moved: &unit.moved,
        table: &unit.table,
        insert: &unit.placement.insert,
    };
    put_expressions(alloc, text, &moves, &columns)?;
    Ok(())
}

/// The columns of what is found out of a unit, and of its placement.
fn columns_found(alloc: Global, unit: &MoveUnit) -> Result<DivisionColumns, Memory>
    requires { IsUnitDivision unit.now }
    ensures { IfOk result (TellDivisions unit.now) }
{
    let rows = division_rows(alloc, unit)?;
    let columns = division_columns(alloc, &unit.placement, &rows)?;
    Ok(columns)
}

impl ExpressionRows for DivisionColumns {
    ghost lines = { λ s. column_lines s };

    ghost has = { λ s. HaveColumnsBit s };

    fn put(&self, text: &mut Vec<u8>, number: usize) -> Result<(), Memory> {
        put_flow(text, self, number)?;
        put_delays(text, self, number)?;
        put_placed(text, self, number)
    }
}

/// Appends where an expression is used and killed, and what comes to it.
fn put_flow(text: &mut Vec<u8>, columns: &DivisionColumns, number: usize) -> Result<(), Memory>
    requires { HaveColumnsBit columns.now number }
    ensures { AppendsOnOk result text.old text.new (flow_lines columns.now.flow number) }
{
    let flow = &columns.flow;
    put_bits(text, &flow.uses, number, b"used")?;
    put_bits(text, &flow.kills, number, b"killed")?;
    put_bits(text, &flow.available, number, b"available")?;
    put_bits(text, &flow.anticipatable, number, b"anticipatable")?;
    put_bits(text, &flow.sure, number, b"sure")?;
    Ok(())
}

/// Appends how far its evaluations can be delayed.
fn put_delays(text: &mut Vec<u8>, columns: &DivisionColumns, number: usize) -> Result<(), Memory>
    requires { HaveColumnsBit columns.now number }
    ensures { AppendsOnOk result text.old text.new (delay_lines columns.now.delays number) }
{
    let delays = &columns.delays;
    put_bits(text, &delays.earliest, number, b"earliest")?;
    put_bits(text, &delays.delayed, number, b"delayed")?;
    put_bits(text, &delays.latest, number, b"latest")?;
    put_bits(text, &delays.isolated, number, b"isolated")?;
    Ok(())
}

/// Appends the lazy placement of it, and on which edges its temporary lives.
fn put_placed(text: &mut Vec<u8>, columns: &DivisionColumns, number: usize) -> Result<(), Memory>
    requires { HaveColumnsBit columns.now number }
    ensures { AppendsOnOk result text.old text.new (placed_lines columns.now.placed number) }
{
    let placed = &columns.placed;
    put_bits(text, &placed.inserted, number, b"inserted")?;
    put_bits(text, &placed.replaced, number, b"replaced")?;
    put_edge_bits(text, &placed.held, number, b"held")
}
