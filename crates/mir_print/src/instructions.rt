// The text of labels and instructions. Each function fails only with `Memory`.
ghost use Rattle.std.specs.Prelude.{◌≡◌, ◌≤◌, length, true};
ghost use Rattle.mir_base.specs.Appending.{AppendsOnOk};
ghost use Rattle.mir_base.specs.Text.{is_target, label, label_before, call_text, inst_text};
ghost use Rattle.mir_print.specs.Labels.{JumpsTo};
ghost use Rattle.mir_print.specs.Scopes.{naming_of};

use crate::Memory;
use crate::operands::{put_args, put_called, put_number, put_operand, put_rhs, put_test, put_var};
use crate::scope::Scope;
use mir_base::{Args, Inst};

/// The label that stands before an instruction or `end`, if there is one.
pub fn put_label_before(text: &mut Vec<u8>, scope: &Scope, place: usize) -> Result<(), Memory>
    requires { place ≤ length scope.now.body.now }
    ensures { AppendsOnOk result text.old text.new (label_before scope.now.body.now place) }
{
    if scope.counts[place] == scope.counts[place + 1] {
        return Ok(());
    }
    put_label(text, scope, place)?;
    text.extend_from_slice(b": ")
}

/// The name of the label at a place that is jumped to.
fn put_label(text: &mut Vec<u8>, scope: &Scope, place: usize) -> Result<(), Memory>
    requires within { place ≤ length scope.now.body.now }
    requires target { is_target scope.now.body.now place ≡ true }
    ensures { AppendsOnOk result text.old text.new (label scope.now.body.now place) }
{
    text.push(b'L')?;
    put_number(text, scope.counts[place + 1])
}

/// An instruction, without its label and its line end.
pub fn put_inst(text: &mut Vec<u8>, scope: &Scope, inst: &Inst) -> Result<(), Memory>
    requires { JumpsTo scope.now.body.now inst.now }
    ensures { AppendsOnOk result text.old text.new (inst_text (naming_of scope.now) inst.now) }
{
    match inst {
        Inst::Receive(x) => {
            text.extend_from_slice(b"receive ")?;
            put_var(text, scope, *x)?;
            text.extend_from_slice(b"(val)")
        }
        Inst::Assign(x, rhs) => {
            put_var(text, scope, *x)?;
            text.extend_from_slice(b" <- ")?;
            put_rhs(text, scope, rhs)
        }
        Inst::Goto(place) => {
            text.extend_from_slice(b"goto ")?;
            put_label(text, scope, *place)
        }
        Inst::If(test, place) => {
            text.extend_from_slice(b"if ")?;
            put_test(text, scope, test)?;
            text.extend_from_slice(b" goto ")?;
            put_label(text, scope, *place)
        }
        Inst::TrapIf(test, number) => {
            text.extend_from_slice(b"if ")?;
            put_test(text, scope, test)?;
            text.extend_from_slice(b" trap ")?;
            put_number(text, usize::from(*number))
        }
        Inst::Call(into, unit, args) => put_call(text, scope, into, *unit, args),
        Inst::Print(a) => {
            text.extend_from_slice(b"print ")?;
            put_operand(text, scope, a)
        }
        Inst::Return(a) => {
            text.extend_from_slice(b"return ")?;
            put_operand(text, scope, a)
        }
    }
}

/// A call, with the variable for its result where there is one.
pub fn put_call(
    text: &mut Vec<u8>,
    scope: &Scope,
    into: &Option<usize>,
    unit: usize,
    args: &Args,
) -> Result<(), Memory>
    ensures { AppendsOnOk result text.old text.new
        (call_text (naming_of scope.now) into.now unit args.now) }
{
    match into {
        None => text.extend_from_slice(b"call ")?,
        Some(x) => {
            put_var(text, scope, *x)?;
            text.extend_from_slice(b" <- ")?;
        }
    }
    put_called(text, scope, unit)?;
    text.push(b',')?;
    put_args(text, scope, args.items())
}
