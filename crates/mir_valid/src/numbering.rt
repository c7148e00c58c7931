// From names to numbers: the program that a raw program stands for. In a valid one each name is in its table, so the 0
// of a name that is not there never shows.
ghost use Rattle.std.specs.Prelude.{◌≡◌, [], map, All, IfOk, OnOk};
ghost use Rattle.mir_parse.specs.RawUnit.{HasPlaces};
ghost use Rattle.mir_valid.specs.Refusals.{AreValid};
ghost use Rattle.mir_valid.specs.Rules.{global_names, same_global_lines};
ghost use Rattle.mir_valid.specs.Numbered.{numbered_operand, numbered_rhs, numbered_test, numbered_trap, numbered_into, numbered_return, numbered_form, numbered_body, numbered_unit, numbered_units};

use crate::Memory;
use crate::calls::unit_numbers;
use crate::globals::is_bad_number;
use crate::labels::label_places;
use crate::tables::Table;
use crate::variables::Variables;
use mir_base::{Args, Inst, Items, Name, Operand, Program, Rhs, Test, Unit};
use mir_parse::{RawForm, RawGlobal, RawInst, RawOperand, RawRhs, RawTest, RawUnit};
use std::alloc::Global;
use std::marker::Model;

/// The tables by which a unit is read: the numbers of the units and of its variables, and the places of its labels.
#[derive(Drop)]
struct Numbering<'t, 'a> {
    units: &'t Table<'a>,
    vars: &'t Table<'a>,
    labels: &'t Table<'a>,
}

impl<'t, 'a> Model for Numbering<'t, 'a> {
    ghost use Rattle.mir_valid.specs.Numbered.{Numbers};

    ghost Value = { Numbers };

    ghost view = { λ tables. record {
      units = tables.units.now;
      vars = tables.vars.now;
      labels = tables.labels.now;
    } };
}

/// The program that these valid globals and units stand for. It fails only with `Memory`.
pub fn program_of(
    alloc: Global,
    globals: &[RawGlobal],
    units: &[RawUnit],
) -> Result<Program, Memory>
    requires { AreValid globals.now units.now }
    ensures globals { IfOk result (λ program. program.globals ≡ global_names globals.now) }
    ensures units { IfOk result (λ program.
        program.units ≡ numbered_units globals.now units.now) }
{
    let made = numbered_units(alloc, globals, units)?;
    let names = global_names(alloc, globals)?;
    Ok(Program {
        globals: Items::of(names),
        units: Items::of(made),
    })
}

// The names of the globals. It fails only with `Memory`.
fn global_names(alloc: Global, globals: &[RawGlobal]) -> Result<Vec<Name>, Memory>
    ensures { IfOk result (λ names. names.items ≡ global_names globals.now) }
{
    let mut names = Vec::new(alloc);
    for global in globals {
        names.push(global.name.clone()?)?;
    }
    Ok(names)
}

// The units, numbered. It fails only with `Memory`.
fn numbered_units(
    alloc: Global,
    globals: &[RawGlobal],
    units: &[RawUnit],
) -> Result<Vec<Unit>, Memory>
    requires { same_global_lines globals.now ≡ [] }
    ensures made { IfOk result (λ made. made.items ≡ numbered_units globals.now units.now) }
    ensures places { OnOk result (All (λ unit. HasPlaces unit.labels unit.body) units.now) }
{
    let numbers = unit_numbers(alloc, units)?;
    let made = numbered_all(alloc, globals, &numbers, units)?;
    Ok(made)
}

// The units, numbered. It fails only with `Memory`.
fn numbered_all<'a>(
    alloc: Global,
    globals: &'a [RawGlobal],
    numbers: &Table<'a>,
    units: &'a [RawUnit],
) -> Result<Vec<Unit>, Memory>
    requires { same_global_lines globals.now ≡ [] }
    ensures made { let numbered = numbered_unit globals.now numbers.now in
        IfOk result (λ made. made.items ≡ map numbered units.now) }
    ensures places { OnOk result (All (λ unit. HasPlaces unit.labels unit.body) units.now) }
{
    let mut made = Vec::new(alloc);
    for unit in units {
        made.push(numbered_unit(alloc, globals, numbers, unit)?)?;
    }
    Ok(made)
}

// A unit, numbered. It fails only with `Memory`.
fn numbered_unit<'a>(
    alloc: Global,
    globals: &'a [RawGlobal],
    units: &Table<'a>,
    unit: &'a RawUnit,
) -> Result<Unit, Memory>
    requires { same_global_lines globals.now ≡ [] }
    ensures made { IfOk result (λ made. made ≡ numbered_unit globals.now units.now unit.now) }
    ensures places { HasPlaces unit.now.labels unit.now.body }
{
    let raw_body = unit.body.items();
    let vars = Variables::of(alloc, globals, raw_body)?;
    let labels = label_places(alloc, unit.labels.items())?;
    let tables = Numbering {
        units,
        vars: vars.numbers(),
        labels: &labels,
    };
    let body = numbered_body(alloc, &tables, raw_body)?;
    let name = unit.name.clone()?;
    Ok(Unit {
        name,
        shared: globals.len(),
        vars: Items::of(vars.into_names()),
        body: Items::of(body),
    })
}

// The instructions of a unit, numbered. It fails only with `Memory`.
fn numbered_body(alloc: Global, tables: &Numbering, body: &[RawInst]) -> Result<Vec<Inst>, Memory>
    ensures { IfOk result (λ insts. insts.items ≡ numbered_body tables.now body.now) }
{
    let mut insts = Vec::new(alloc);
    for inst in body {
        insts.push(numbered_form(alloc, tables, &inst.form)?)?;
    }
    Ok(insts)
}

// An instruction, with its variables, its target and its callee numbered. It fails only with `Memory`.
fn numbered_form(alloc: Global, tables: &Numbering, form: &RawForm) -> Result<Inst, Memory>
    ensures { IfOk result (λ inst. inst ≡ numbered_form tables.now form.now) }
{
    let vars = tables.vars;
    match form {
        RawForm::Receive(name) => Ok(Inst::Receive(vars.number(name))),
        RawForm::Assign(name, rhs) => {
            Ok(Inst::Assign(vars.number(name), numbered_rhs(vars, rhs)))
        }
        RawForm::Goto(label) => Ok(Inst::Goto(tables.labels.number(label))),
        RawForm::If(test, label) => Ok(Inst::If(
            numbered_test(vars, test),
            tables.labels.number(label),
        )),
        RawForm::TrapIf(test, number) => Ok(Inst::TrapIf(
            numbered_test(vars, test),
            numbered_trap(*number),
        )),
        RawForm::Call(into, unit, operands) => {
            let into = numbered_into(vars, into);
            let args = numbered_args(alloc, vars, operands.items())?;
            Ok(Inst::Call(into, tables.units.number(unit), args))
        }
        RawForm::Print(a) => Ok(Inst::Print(numbered_operand(vars, a))),
        RawForm::Return(a) => Ok(Inst::Return(numbered_return(vars, a))),
    }
}

// The right side of an assignment, with its variables numbered.
fn numbered_rhs(vars: &Table, rhs: &RawRhs) -> Rhs
    ensures { result ≡ numbered_rhs vars.now rhs.now }
{
    match rhs {
        RawRhs::Plain(a) => Rhs::Plain(numbered_operand(vars, a)),
        RawRhs::Unary(op, a) => Rhs::Unary(*op, numbered_operand(vars, a)),
        RawRhs::Binary(op, a, b) => Rhs::Binary(
            *op,
            numbered_operand(vars, a),
            numbered_operand(vars, b),
        ),
    }
}

// An operand, with its variable numbered.
fn numbered_operand(vars: &Table, operand: &RawOperand) -> Operand
    ensures { result ≡ numbered_operand vars.now operand.now }
{
    match operand {
        RawOperand::Var(name) => Operand::Var(vars.number(name)),
        RawOperand::Const(z) => Operand::Const(*z),
    }
}

// A test, with its variables numbered.
fn numbered_test(vars: &Table, test: &RawTest) -> Test
    ensures { result ≡ numbered_test vars.now test.now }
{
    match test {
        RawTest::Rel(op, a, b) => Test::Rel(
            *op,
            numbered_operand(vars, a),
            numbered_operand(vars, b),
        ),
        RawTest::Holds(a) => Test::Holds(numbered_operand(vars, a)),
        RawTest::Fails(a) => Test::Fails(numbered_operand(vars, a)),
    }
}

// The number of a trap as a byte; 0 where the number is below 0 or above 255.
fn numbered_trap(number: i64) -> u8
    ensures { result ≡ numbered_trap number }
{
    if is_bad_number(number) {
        0
    } else {
        number.unsigned_abs() as u8
    }
}

// The variable for the result of a call, numbered.
fn numbered_into(vars: &Table, into: &Option<Name>) -> Option<usize>
    ensures { result ≡ numbered_into vars.now into.now }
{
    match into {
        None => None,
        Some(name) => Some(vars.number(name)),
    }
}

// The arguments of a call, numbered. It fails only with `Memory`.
fn numbered_args(alloc: Global, vars: &Table, operands: &[RawOperand]) -> Result<Args, Memory>
    ensures { IfOk result (λ args. args ≡ map (numbered_operand vars.now) operands.now) }
{
    let mut numbered = Vec::new(alloc);
    for operand in operands {
        numbered.push(numbered_operand(vars, operand))?;
    }
    Args::of(alloc, &numbered)
}

// What a return gives: 0 where it names nothing.
fn numbered_return(vars: &Table, operand: &Option<RawOperand>) -> Operand
    ensures { result ≡ numbered_return vars.now operand.now }
{
    match operand {
        None => Operand::Const(0),
        Some(a) => numbered_operand(vars, a),
    }
}
