// The canonical text of a program.
ghost use Rattle.std.specs.Prelude.{◌≡◌, ◌<◌, flat_map, IfOk};
ghost use Rattle.mir_base.specs.Appending.{AppendsOnOk};
ghost use Rattle.mir_base.specs.Shapes.{BodyFits};
ghost use Rattle.mir_base.specs.Text.{lines_text, global_text, canonical_text};
ghost use Rattle.mir_print.specs.Scopes.{naming_of, unit_text_among};

use crate::Memory;
use crate::instructions::{put_inst, put_label_before};
use crate::labels::counts;
use crate::scope::Scope;
use mir_base::{Name, Program, Unit};
use std::alloc::Global;

/// The canonical text of a program: for each global `global NAME`, and for each unit `NAME: begin`, a line for each
/// instruction, and `end`. Units follow each other without a blank line, each line ends with a line feed, and the
/// places that jumps go to have the labels `L1`, `L2` and so on in ascending order. It fails only with `Memory`.
/// `text_is_read_back` says what reading the text gives.
pub fn print(alloc: Global, program: &Program) -> Result<Vec<u8>, Memory>
    ensures { IfOk result (λ text. text.items ≡ canonical_text program.now) }
{
    let units = program.units.items();
    let mut text = Vec::new(alloc);
    put_globals(&mut text, program.globals.items())?;
    for number in 0..units.len() {
        put_unit(alloc, &mut text, units, program.unit(number))?;
    }
    Ok(text)
}

/// The lines of the globals.
fn put_globals(text: &mut Vec<u8>, globals: &[Name]) -> Result<(), Memory>
    ensures { AppendsOnOk result text.old text.new (flat_map global_text globals.now) }
{
    for name in globals {
        put_global(text, name)?;
    }
    Ok(())
}

/// The line of a global.
fn put_global(text: &mut Vec<u8>, name: &Name) -> Result<(), Memory>
    ensures { AppendsOnOk result text.old text.new (global_text name.now) }
{
    text.extend_from_slice(b"global ")?;
    text.extend_from_slice(name.bytes())?;
    text.extend_from_slice(b"\n")
}

/// A unit, among these units.
fn put_unit(alloc: Global, text: &mut Vec<u8>, units: &[Unit], unit: &Unit) -> Result<(), Memory>
    requires { BodyFits units.now unit.now.body }
    ensures { AppendsOnOk result text.old text.new (unit_text_among units.now unit.now) }
{
    let body = unit.body.items();
    let counts = counts(alloc, body)?;
    let scope = Scope {
        units,
        vars: unit.vars.items(),
        body,
        counts: &counts,
    };
    text.extend_from_slice(unit.name.bytes())?;
    text.extend_from_slice(b": begin\n")?;
    put_lines(text, &scope)?;
    put_label_before(text, &scope, body.len())?;
    text.extend_from_slice(b"end\n")
}

/// The lines of a unit's instructions.
fn put_lines(text: &mut Vec<u8>, scope: &Scope) -> Result<(), Memory>
    requires { BodyFits scope.now.units.now scope.now.body.now }
    ensures { AppendsOnOk result text.old text.new
        (lines_text (naming_of scope.now) 0 scope.now.body.now) }
{
    for (place, inst) in scope.body.iter().enumerate() {
        put_label_before(text, scope, place)?;
        put_inst(text, scope, inst)?;
        text.push(b'\n')?;
    }
    Ok(())
}
