// The tables of the pass `wanted`. Each function fails only with `Memory`.
ghost use Rattle.std.specs.Prelude.{◌<◌, IfOk, OnOk, length};
ghost use Rattle.table_text.specs.Lines.{names_of_units};
ghost use Rattle.table_text.specs.Turns.{AppendsSome, InTurn};
ghost use Rattle.wanted_table.specs.Narrowings.{IsNarrowedAt, ShowsWanted, ShowsSteps};

use crate::numbers::put_numbers;
use crate::steps::{put_before, put_behind, wanted_steps};
use mir_base::{Memory, Program, Unit as MirUnit};
use program_pass::PassSteps;
use std::alloc::Global;

/// The tables of `wanted`: for each unit of a program how many bits of its variables are wanted before each node, and the
/// graphs on the way to that in which no others are computed. It fails only with `Memory`.
pub fn text_of_wanted(alloc: Global, program: &Program) -> Result<Vec<u8>, Memory>
    ensures { IfOk result (λ text. ShowsWanted program.now text.items) }
{
    let mut text = Vec::new(alloc);
    text.extend_from_slice(b"tables 1 wanted\n")?;
    put_each(alloc, &mut text, program)?;
    Ok(text)
}

/// Appends the tables of each unit.
fn put_each(alloc: Global, text: &mut Vec<u8>, program: &Program) -> Result<(), Memory>
    ensures { OnOk result (AppendsSome
        (InTurn (IsNarrowedAt program.now.units) (length program.now.units)) text.old text.new) }
{
    for number in 0..program.units.items().len() {
        put_narrowed(alloc, text, program, number)?;
    }
    Ok(())
}

/// Appends the tables of the unit of this number.
fn put_narrowed(
    alloc: Global,
    text: &mut Vec<u8>,
    program: &Program,
    number: usize,
) -> Result<(), Memory>
    requires { number < length program.now.units }
    ensures { OnOk result (AppendsSome (IsNarrowedAt program.now.units number) text.old text.new) }
{
    let steps = wanted_steps(alloc, program, number)?;
    put_tables(alloc, text, program.units.items(), &steps)?;
    Ok(())
}

/// Appends the graphs of a unit, and what is wanted before the nodes of the cleaned one.
fn put_tables(
    alloc: Global,
    text: &mut Vec<u8>,
    units: &[MirUnit],
    steps: &PassSteps,
) -> Result<(), Memory>
    ensures { OnOk result (AppendsSome (ShowsSteps (names_of_units units.now) steps.now)
        text.old text.new) }
{
    put_before(text, units, steps)?;
    text.extend_from_slice(b"pass wanted\n")?;
    put_numbers(alloc, text, &steps.cleaned)?;
    put_behind(text, units, b"wanted", steps)?;
    Ok(())
}
