// The tables of a unit whose divisions move. Each function fails only with `Memory`.
ghost use Rattle.std.specs.Prelude.{OnOk};
ghost use Rattle.mir_base.specs.Appending.{AppendsOnOk};
ghost use Rattle.table_text.specs.Lines.{names_of_units};
ghost use Rattle.table_text.specs.Turns.{AppendsSome};
ghost use Rattle.division_table.specs.Rows.{IsUnitDivision};
ghost use Rattle.division_table.specs.Units.{IsDividedText, split_text, up_to_split};

use crate::expressions::put_divisions;
use flow_graph::Graph;
use mir_base::{Memory, Unit as MirUnit};
use mir_opt::MoveUnit;
use std::alloc::Global;
use table_text::{put_back, put_front, put_pass, put_stage};

/// Appends the tables of a unit, among the units of its program.
pub(crate) fn put_divided(
    alloc: Global,
    text: &mut Vec<u8>,
    units: &[MirUnit],
    unit: &MoveUnit,
) -> Result<(), Memory>
    requires { IsUnitDivision unit.now }
    ensures { OnOk result (AppendsSome (IsDividedText (names_of_units units.now) unit.now)
        text.old text.new) }
{
    put_up_to_split(text, units, unit)?;
    put_divisions(alloc, text, unit)?;
    put_back(text, units, b"divisions", &unit.moved, &unit.swept)?;
    Ok(())
}

/// Appends the name of a unit and its graphs up to the split one, between the passes that make them.
fn put_up_to_split(text: &mut Vec<u8>, units: &[MirUnit], unit: &MoveUnit) -> Result<(), Memory>
    ensures { AppendsOnOk result text.old text.new
        (up_to_split (names_of_units units.now) unit.now) }
{
    put_front(text, units, &unit.lowered, &unit.cleaned)?;
    put_split(text, units, &unit.split)
}

/// Appends the split graph of a unit, between the passes that make it and that it is given to.
fn put_split(text: &mut Vec<u8>, units: &[MirUnit], split: &Graph) -> Result<(), Memory>
    ensures { AppendsOnOk result text.old text.new
        (split_text (names_of_units units.now) split.now) }
{
    put_pass(text, b"split")?;
    put_stage(text, units, b"split", split)?;
    put_pass(text, b"divisions")
}
