// The program of the units that calls lead to.
ghost use Rattle.std.specs.Prelude.{◌≡◌, ◌++◌, ◌∷◌, [], length, if◌then◌else◌, IfOk, OnOk};
ghost use Rattle.flow_graph.specs.NumberTables.{number_at};
ghost use Rattle.program_pass.specs.PassPrograms.{IsOnly, KeepsRuns};
ghost use Rattle.called_units.specs.CalledUnits.{HasCalledUnits, only_marked, with_calls};

use crate::called::called;
use crate::renumbering::with_calls;
use flow_graph::ranks;
use mir_base::{Memory, Program, Unit as MirUnit};
use std::alloc::Global;

/// The program of the units that calls lead to from the first, in their order, with their new numbers in calls. The
/// globals stay. It is the same, evaluates no more operators, and never has more frames. It fails only with `Memory`.
pub fn called_program(alloc: Global, program: &Program) -> Result<Program, Memory>
    ensures called { IfOk result (HasCalledUnits program.now) }
    ensures only { IfOk result (IsOnly (HasCalledUnits program.now)) }
    ensures keeps { IfOk result (KeepsRuns program.now) }
{
    let marks = called(alloc, program)?;
    let units = marked_units(alloc, program, marks.as_slice())?;
    program.fits_together();
    let target = program.with_units(units)?;
    Ok(target)
}

/// The marked units, with their new numbers in calls.
fn marked_units(alloc: Global, program: &Program, marks: &[bool]) -> Result<Vec<MirUnit>, Memory>
    requires { length marks.now ≡ length program.now.units }
    ensures { IfOk result (λ units. units.items ≡ (only_marked marks.now program.now).units) }
{
    program.fits_together();
    let ranks = ranks(alloc, marks)?;
    let mut units = Vec::new(alloc);
    for number in 0..marks.len() {
        let unit = program.unit(number);
        push_marked(alloc, &mut units, marks[number], unit, ranks.as_slice())?;
    }
    Ok(units)
}

/// Pushes a unit with other numbers in its calls where it is marked.
fn push_marked(
    alloc: Global,
    units: &mut Vec<MirUnit>,
    marked: bool,
    unit: &MirUnit,
    ranks: &[usize],
) -> Result<(), Memory>
    ensures { OnOk result (let made = with_calls (number_at ranks.now) unit.now in
        units.new.items ≡ if marked then units.old.items ++ made ∷ [] else units.old.items) }
{
    if marked {
        units.push(with_calls(alloc, unit, ranks)?)?;
    }
    Ok(())
}
