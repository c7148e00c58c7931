// What an instruction names.
ghost use Rattle.std.specs.Prelude.{◌≡◌};
ghost use Rattle.std.specs.Option.{option_copied, option_map};
ghost use Rattle.mir_valid.specs.Rules.{received_by, jumped_to, trapped_with, called_by, is_receive};

use mir_base::Name;
use mir_parse::{RawForm, RawInst};

/// The variable that the instruction receives.
pub fn received_by(form: &RawForm) -> Option<&Name>
    ensures { option_copied result ≡ received_by form.now }
{
    match form {
        RawForm::Receive(name) => Some(name),
        _ => None,
    }
}

/// Whether the instruction is a receive.
pub fn is_receive(inst: &RawInst) -> bool
    ensures { result ≡ is_receive inst.now }
{
    received_by(&inst.form).is_some()
}

/// The label that the instruction jumps to.
pub fn jumped_to(form: &RawForm) -> Option<&Name>
    ensures { option_copied result ≡ jumped_to form.now }
{
    match form {
        RawForm::Goto(label) => Some(label),
        RawForm::If(_, label) => Some(label),
        _ => None,
    }
}

/// The number that the instruction traps with.
pub fn trapped_with(form: &RawForm) -> Option<i64>
    ensures { result ≡ trapped_with form.now }
{
    match form {
        RawForm::TrapIf(_, number) => Some(*number),
        _ => None,
    }
}

/// The name of the unit that the instruction calls, and the number of its arguments.
pub fn called_by(form: &RawForm) -> Option<(&Name, usize)>
    ensures { option_map (λ call. (call.0.now, call.1)) result ≡ called_by form.now }
{
    match form {
        RawForm::Call(_, unit, operands) => Some((unit, operands.items().len())),
        _ => None,
    }
}
