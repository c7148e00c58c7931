// The tables of the word `demanded`. Each function fails only with `Memory`.
ghost use Rattle.std.specs.Prelude.{◌<◌, IfOk, OnOk, length};
ghost use Rattle.mir_base.specs.Appending.{AppendsOnOk};
ghost use Rattle.node_list.specs.Lists.{list_at};
ghost use Rattle.program_wanted.specs.Tables.{demands_of};
ghost use Rattle.program_wanted.specs.WantedPrograms.{AreProgramDemands};
ghost use Rattle.table_text.specs.Lines.{names_of_units};
ghost use Rattle.table_text.specs.Turns.{AppendsSome, InTurn};
ghost use Rattle.wanted_bits.specs.Asking.{asked_by};
ghost use Rattle.wanted_table.specs.Demanding.{IsDemandedAt, ShowsAsked, ShowsDemanded, text_asked};

use crate::numbers::{put_asked_numbers, put_entered, put_returned};
use crate::steps::{demanded_steps, put_before, put_behind};
use mir_base::{Memory, Program, Unit as MirUnit};
use program_pass::PassSteps;
use program_wanted::{Tables, around, program_demands};
use std::alloc::Global;
use wanted_bits::Around;

/// The tables of `demanded`: for each unit of a program how many bits are asked for around it, by the least demands of
/// the units, how many of its variables are wanted before each node, and the graphs on the way to that in which no
/// others are computed. It fails only with `Memory`.
pub fn text_of_demanded(alloc: Global, program: &Program) -> Result<Vec<u8>, Memory>
    ensures { IfOk result (λ text. ShowsDemanded program.now text.items) }
{
    let tables = program_demands(alloc, program)?;
    let mut text = Vec::new(alloc);
    text.extend_from_slice(b"tables 1 demanded\n")?;
    put_units(alloc, &mut text, program, &tables)?;
    Ok(text)
}

/// Appends the tables of each unit, by these demands.
fn put_units(
    alloc: Global,
    text: &mut Vec<u8>,
    program: &Program,
    tables: &Tables,
) -> Result<(), Memory>
    requires { AreProgramDemands program.now (demands_of tables.now) }
    ensures { OnOk result (AppendsSome
        (InTurn (IsDemandedAt (demands_of tables.now) program.now.units) (length program.now.units))
        text.old text.new) }
{
    for number in 0..program.units.items().len() {
        put_demanded(alloc, text, program, tables, number)?;
    }
    Ok(())
}

/// Appends the tables of the unit of this number.
fn put_demanded(
    alloc: Global,
    text: &mut Vec<u8>,
    program: &Program,
    tables: &Tables,
    number: usize,
) -> Result<(), Memory>
    requires demands { AreProgramDemands program.now (demands_of tables.now) }
    requires number { number < length program.now.units }
    ensures { OnOk result (AppendsSome
        (IsDemandedAt (demands_of tables.now) program.now.units number) text.old text.new) }
{
    let around = around(tables, number);
    let steps = demanded_steps(alloc, program, number, &around)?;
    put_asked_tables(alloc, text, program.units.items(), number, &steps, &around)?;
    Ok(())
}

/// Appends the graphs of the unit of this number, what is asked for around it, and what is wanted before the nodes of
/// the cleaned one.
fn put_asked_tables(
    alloc: Global,
    text: &mut Vec<u8>,
    units: &[MirUnit],
    number: usize,
    steps: &PassSteps,
    around: &Around<'_>,
) -> Result<(), Memory>
    requires globals { number < length around.now.globals.now }
    requires arguments { number < length around.now.arguments.now }
    ensures { OnOk result (AppendsSome (ShowsAsked (names_of_units units.now)
        (asked_by steps.now.cleaned.shared around.now) (list_at around.now.globals.now number)
        (list_at around.now.arguments.now number) around.now.back.now steps.now)
        text.old text.new) }
{
    put_front(text, units, number, steps, around)?;
    put_asked_numbers(alloc, text, &steps.cleaned, around)?;
    put_behind(text, units, b"demanded", steps)?;
    Ok(())
}

/// Appends the first two graphs of a unit, and what is asked for around it.
fn put_front(
    text: &mut Vec<u8>,
    units: &[MirUnit],
    number: usize,
    steps: &PassSteps,
    around: &Around<'_>,
) -> Result<(), Memory>
    requires globals { number < length around.now.globals.now }
    requires arguments { number < length around.now.arguments.now }
    ensures { AppendsOnOk result text.old text.new (text_asked (names_of_units units.now)
        (list_at around.now.globals.now number) (list_at around.now.arguments.now number)
        around.now.back.now steps.now) }
{
    let cleaned = &steps.cleaned;
    put_before(text, units, steps)?;
    text.extend_from_slice(b"pass demanded\n")?;
    put_entered(
        text,
        &around.globals[number],
        &around.arguments[number],
        cleaned,
    )?;
    put_returned(text, around.back, cleaned.shared())
}
