// The tables of a trail.
ghost use Rattle.std.specs.Prelude.{◌≡◌, length, IfOk, OnOk};
ghost use Rattle.mir_opt.specs.Links.{IsLinked};
ghost use Rattle.table_text.specs.Lines.{names_of_units};
ghost use Rattle.table_text.specs.Turns.{AppendsSome, InTurn};
ghost use Rattle.pass_table.specs.Trails.{AreLinkedUnits, IsUnitAt, ShowsTables};

use crate::units::put_unit_tables;
use mir_base::{Memory, Program, Unit as MirUnit};
use mir_opt::{Trail, UnitTrail};
use std::alloc::Global;

/// The text of the tables of a linked trail. It fails only with `Memory`.
pub fn text_of_tables(alloc: Global, trail: &Trail) -> Result<Vec<u8>, Memory>
    requires { IsLinked trail.now }
    ensures { IfOk result (λ text. ShowsTables trail.now text.items) }
{
    let mut text = Vec::new(alloc);
    text.extend_from_slice(b"tables 1\n")?;
    put_units(
        alloc,
        &mut text,
        units_of(&trail.source),
        trail.units.items(),
    )?;
    Ok(text)
}

/// The units of a program.
fn units_of(program: &Program) -> &[MirUnit]
    ensures { result.now ≡ program.now.units }
{
    program.units.items()
}

/// Appends the tables of each of these units, whose program has the units `sources`.
fn put_units(
    alloc: Global,
    text: &mut Vec<u8>,
    sources: &[MirUnit],
    units: &[UnitTrail],
) -> Result<(), Memory>
    requires { AreLinkedUnits units.now }
    ensures { OnOk result (AppendsSome
        (InTurn (IsUnitAt (names_of_units sources.now) units.now) (length units.now))
        text.old text.new) }
{
    for number in 0..units.len() {
        put_unit_tables(alloc, text, sources, &units[number])?;
    }
    Ok(())
}
