// The tables of a unit, stage by stage. Each function fails only with `Memory`.
ghost use Rattle.std.specs.Prelude.{length, OnOk};
ghost use Rattle.table_text.specs.Lines.{names_of_units};
ghost use Rattle.table_text.specs.Turns.{AppendsSome, InTurn};
ghost use Rattle.pass_table.specs.Units.{IsStageAt, IsUnitLinked, IsUnitMotion, IsUnitText};

use crate::rounds::put_rounds;
use crate::stages::put_stage;
use mir_base::{Memory, Unit as MirUnit};
use mir_opt::{Stage, UnitTrail, before_rounds};
use std::alloc::Global;
use table_text::put_unit;

/// Appends the tables of a unit, among the units of its program.
pub(crate) fn put_unit_tables(
    alloc: Global,
    text: &mut Vec<u8>,
    units: &[MirUnit],
    unit: &UnitTrail,
) -> Result<(), Memory>
    requires { IsUnitLinked unit.now }
    ensures { OnOk result (AppendsSome (IsUnitText (names_of_units units.now) unit.now)
        text.old text.new) }
{
    put_unit(text, unit.lowered.name())?;
    put_stages(alloc, text, units, unit, before_rounds())?;
    put_rounds(alloc, text, units, unit)?;
    put_stage(alloc, text, units, unit, Stage::Result)?;
    Ok(())
}

/// Appends the tables of each of these stages of a unit.
fn put_stages(
    alloc: Global,
    text: &mut Vec<u8>,
    units: &[MirUnit],
    unit: &UnitTrail,
    stages: &[Stage],
) -> Result<(), Memory>
    requires { IsUnitMotion unit.now }
    ensures { OnOk result (AppendsSome
        (InTurn (IsStageAt (names_of_units units.now) unit.now stages.now) (length stages.now))
        text.old text.new) }
{
    for number in 0..stages.len() {
        put_stage(alloc, text, units, unit, stages[number])?;
    }
    Ok(())
}
