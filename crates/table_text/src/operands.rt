// The text of names, operands and right sides over the variables of a graph. Each function appends what it names, and
// fails only with `Memory`.
ghost use Rattle.std.specs.Prelude.{[], slice_index_or};
ghost use Rattle.mir_base.specs.Appending.{AppendsOnOk};
ghost use Rattle.mir_base.specs.Text.{operand_text, rhs_text};
ghost use Rattle.mir_print.specs.Sides.{naming_with};
ghost use Rattle.table_text.specs.Lines.{assigned_text, name_field, names_of_units};

use mir_base::{Memory, Name, Operand, Rhs, Unit as MirUnit};
use mir_print::put_side;

/// The name of this number, and nothing where there is none.
pub fn put_name(text: &mut Vec<u8>, names: &[Name], number: usize) -> Result<(), Memory>
    ensures { AppendsOnOk result text.old text.new (slice_index_or names.now number []) }
{
    match names.get(number) {
        Some(name) => text.extend_from_slice(name.bytes()),
        None => Ok(()),
    }
}

/// A right side.
pub fn put_right(text: &mut Vec<u8>, vars: &[Name], rhs: &Rhs) -> Result<(), Memory>
    ensures { AppendsOnOk result text.old text.new (rhs_text (naming_with vars.now) rhs.now) }
{
    put_side(text, vars, rhs)
}

/// An assignment: `x <- a + b`.
pub fn put_assigned(
    text: &mut Vec<u8>,
    vars: &[Name],
    target: usize,
    rhs: &Rhs,
) -> Result<(), Memory>
    ensures { AppendsOnOk result text.old text.new (assigned_text vars.now target rhs.now) }
{
    put_name(text, vars, target)?;
    text.extend_from_slice(b" <- ")?;
    put_side(text, vars, rhs)
}

/// An operand.
pub(crate) fn put_operand(text: &mut Vec<u8>, vars: &[Name], a: Operand) -> Result<(), Memory>
    ensures { AppendsOnOk result text.old text.new (operand_text (naming_with vars.now) a) }
{
    put_side(text, vars, &Rhs::Plain(a))
}

/// The name of the unit of this number behind a blank.
pub fn put_unit_field(text: &mut Vec<u8>, units: &[MirUnit], unit: usize) -> Result<(), Memory>
    ensures { AppendsOnOk result text.old text.new (name_field (names_of_units units.now) unit) }
{
    text.extend_from_slice(b" ")?;
    put_unit_name(text, units, unit)
}

/// The name of the unit of this number, and nothing where there is none.
fn put_unit_name(text: &mut Vec<u8>, units: &[MirUnit], unit: usize) -> Result<(), Memory>
    ensures { AppendsOnOk result text.old text.new
        (slice_index_or (names_of_units units.now) unit []) }
{
    match units.get(unit) {
        Some(unit) => text.extend_from_slice(unit.name.bytes()),
        None => Ok(()),
    }
}
