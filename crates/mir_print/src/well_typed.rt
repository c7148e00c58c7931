// What the types of a program say of its names and numbers, handed out part by part. Nothing here does anything: a
// contract learns what a type says of a value where the code comes to that value.
ghost use Rattle.std.specs.Prelude.{◌+◌, ◌^◌, ◌<◌, length, FitsSigned};
ghost use Rattle.std.specs.Int.{w64};
ghost use Rattle.std.specs.List.{All};
ghost use Rattle.mir_base.specs.Names.{IsName};
ghost use Rattle.mir_print.specs.WellTyped.{OperandWellTyped, RhsWellTyped, TestWellTyped, InstWellTyped, UnitWellTyped, ProgramWellTyped};

use mir_base::{Inst, Name, Operand, Program, Rhs, Test, Unit};

/// Has no effect; carries the theorem of what the types of a program say: its parts fit together, its names are
/// spelled as names, and its constants are numbers of 64 bits. It does not allocate, and visits each part of the
/// program once.
pub fn hand_out_program(program: &Program)
    ensures { ProgramWellTyped program.now }
{
    hand_out_units(program.units.items());
    hand_out_names(program.globals.items());
}

// Has no effect; carries the theorem that units are well typed.
fn hand_out_units(units: &[Unit])
    ensures { All UnitWellTyped units.now }
{
    for unit in units {
        hand_out_unit(unit);
    }
}

// Has no effect; carries the theorem that a unit is well typed.
fn hand_out_unit(unit: &Unit)
    ensures { UnitWellTyped unit.now }
{
    let insts = unit.insts();
    hand_out_insts(insts);
    let _ = unit.name.bytes();
    hand_out_names(unit.vars.items());
}

// Has no effect; carries the theorem that the constants of instructions do, and there are fewer than 2^64 of these.
fn hand_out_insts(insts: &[Inst])
    ensures well_typed { All InstWellTyped insts.now }
    ensures few { length insts.now + 1 < 2 ^ 64 }
{
    for inst in insts {
        hand_out_inst(inst);
    }
}

// Has no effect; carries the theorem that the constants of an instruction do.
fn hand_out_inst(inst: &Inst)
    ensures { InstWellTyped inst.now }
{
    match inst {
        Inst::Receive(_) => {}
        Inst::Assign(_, rhs) => hand_out_rhs(rhs),
        Inst::Goto(_) => {}
        Inst::If(test, _) => hand_out_test(test),
        Inst::TrapIf(test, number) => {
            hand_out_test(test);
            hand_out_trap(*number);
        }
        Inst::Call(_, _, args) => hand_out_operands(args.items()),
        Inst::Print(a) => hand_out_operand(a),
        Inst::Return(a) => hand_out_operand(a),
    }
}

// Has no effect; carries the theorem that the constants of a right side do.
fn hand_out_rhs(rhs: &Rhs)
    ensures { RhsWellTyped rhs.now }
{
    match rhs {
        Rhs::Plain(a) => hand_out_operand(a),
        Rhs::Unary(_, a) => hand_out_operand(a),
        Rhs::Binary(_, a, b) => {
            hand_out_operand(a);
            hand_out_operand(b);
        }
    }
}

// Has no effect; carries the theorem that the constant of an operand fits 64 bits.
fn hand_out_operand(operand: &Operand)
    ensures { OperandWellTyped operand.now }
{
    match operand {
        Operand::Var(_) => {}
        Operand::Const(number) => hand_out_number(*number),
    }
}

// Has no effect; carries the theorem that a number fits 64 bits with a sign.
fn hand_out_number(number: i64)
    ensures { FitsSigned w64 number }
{
    let _ = number;
}

// Has no effect; carries the theorem that the number of a trap fits 8 bits.
fn hand_out_trap(number: u8)
    ensures { number < 2 ^ 8 }
{
    let _ = number;
}

// Has no effect; carries the theorem that the constants of a test are signed 64-bit numbers.
fn hand_out_test(test: &Test)
    ensures { TestWellTyped test.now }
{
    match test {
        Test::Rel(_, a, b) => {
            hand_out_operand(a);
            hand_out_operand(b);
        }
        Test::Holds(a) => hand_out_operand(a),
        Test::Fails(a) => hand_out_operand(a),
    }
}

// Has no effect; carries the theorem that the constants among arguments are signed 64-bit numbers.
fn hand_out_operands(operands: &[Operand])
    ensures { All OperandWellTyped operands.now }
{
    for operand in operands {
        hand_out_operand(operand);
    }
}

// Has no effect; carries the theorem that names are spelled as names.
fn hand_out_names(names: &[Name])
    ensures { All IsName names.now }
{
    for name in names {
        let _ = name.bytes();
    }
}
