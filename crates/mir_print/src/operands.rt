// The text of operands, and of what is made of them. Each function fails only with `Memory`.
ghost use Rattle.std.specs.Prelude.{decimal};
ghost use Rattle.mir_base.specs.Appending.{AppendsOnOk};
ghost use Rattle.mir_base.specs.Text.{var_text, called_text, operand_text, rhs_text, test_text, args_text};
ghost use Rattle.mir_print.specs.Scopes.{naming_of, arg_text, spaced_text};

use crate::Memory;
use crate::scope::Scope;
use itoa::Buffer;
use mir_base::{Operand, Rhs, Test, op_text, rel_op_text, un_op_text};

/// The name of a variable.
pub fn put_var(text: &mut Vec<u8>, scope: &Scope, x: usize) -> Result<(), Memory>
    ensures { AppendsOnOk result text.old text.new (var_text (naming_of scope.now) x) }
{
    match scope.vars.get(x) {
        Some(name) => text.extend_from_slice(name.bytes()),
        None => Ok(()),
    }
}

/// The name of a unit that is called.
pub fn put_called(text: &mut Vec<u8>, scope: &Scope, unit: usize) -> Result<(), Memory>
    ensures { AppendsOnOk result text.old text.new (called_text (naming_of scope.now) unit) }
{
    match scope.units.get(unit) {
        Some(unit) => text.extend_from_slice(unit.name.bytes()),
        None => Ok(()),
    }
}

/// A number, in decimal.
pub fn put_number(text: &mut Vec<u8>, number: usize) -> Result<(), Memory>
    ensures { AppendsOnOk result text.old text.new (decimal number) }
{
    let mut buffer = Buffer::new();
    text.extend_from_slice(buffer.format(number).as_bytes())
}

/// An operand: the name of a variable, or a number with `-` directly before its digits where it is negative.
pub fn put_operand(text: &mut Vec<u8>, scope: &Scope, operand: &Operand) -> Result<(), Memory>
    ensures { AppendsOnOk result text.old text.new
        (operand_text (naming_of scope.now) operand.now) }
{
    match operand {
        Operand::Var(x) => put_var(text, scope, *x),
        Operand::Const(number) => {
            let mut buffer = Buffer::new();
            text.extend_from_slice(buffer.format(*number).as_bytes())
        }
    }
}

/// The right side of an assignment.
pub fn put_rhs(text: &mut Vec<u8>, scope: &Scope, rhs: &Rhs) -> Result<(), Memory>
    ensures { AppendsOnOk result text.old text.new (rhs_text (naming_of scope.now) rhs.now) }
{
    match rhs {
        Rhs::Plain(a) => put_operand(text, scope, a),
        Rhs::Unary(op, a) => {
            text.extend_from_slice(un_op_text(*op))?;
            text.push(b' ')?;
            put_operand(text, scope, a)
        }
        Rhs::Binary(op, a, b) => put_spaced(text, scope, a, op_text(*op), b),
    }
}

/// What a conditional jump asks.
pub fn put_test(text: &mut Vec<u8>, scope: &Scope, test: &Test) -> Result<(), Memory>
    ensures { AppendsOnOk result text.old text.new (test_text (naming_of scope.now) test.now) }
{
    match test {
        Test::Rel(op, a, b) => put_spaced(text, scope, a, rel_op_text(*op), b),
        Test::Holds(a) => put_operand(text, scope, a),
        Test::Fails(a) => {
            text.extend_from_slice(b"! ")?;
            put_operand(text, scope, a)
        }
    }
}

/// The arguments of a call, as `(a,int;b,int)`.
pub fn put_args(text: &mut Vec<u8>, scope: &Scope, operands: &[Operand]) -> Result<(), Memory>
    ensures { AppendsOnOk result text.old text.new (args_text (naming_of scope.now) operands.now) }
{
    text.push(b'(')?;
    for (number, operand) in operands.iter().enumerate() {
        put_arg(text, scope, number, operand)?;
    }
    text.push(b')')?;
    Ok(())
}

/// Two operands with an operator between them, and a blank on each side of it.
fn put_spaced(
    text: &mut Vec<u8>,
    scope: &Scope,
    a: &Operand,
    op: &[u8],
    b: &Operand,
) -> Result<(), Memory>
    ensures { AppendsOnOk result text.old text.new
        (spaced_text (naming_of scope.now) a.now op.now b.now) }
{
    put_operand(text, scope, a)?;
    text.push(b' ')?;
    text.extend_from_slice(op)?;
    text.push(b' ')?;
    put_operand(text, scope, b)
}

/// An argument of a call, behind the semicolon that separates it from the one before.
fn put_arg(
    text: &mut Vec<u8>,
    scope: &Scope,
    number: usize,
    operand: &Operand,
) -> Result<(), Memory>
    ensures { AppendsOnOk result text.old text.new
        (arg_text (naming_of scope.now) number operand.now) }
{
    if number > 0 {
        text.push(b';')?;
    }
    put_operand(text, scope, operand)?;
    text.extend_from_slice(b",int")
}
