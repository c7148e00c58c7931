// Shifts to the left, and the shifts back that extend a variable.
ghost use Rattle.std.specs.Prelude.{◌≡◌, ◌-◌, ◌<◌, ◌^◌, neg_ℤ, pos, IfSome};
ghost use Rattle.extend_flow.specs.Extensions.{IsDistance, extension_by, extension_held, shifts_variable, keeps_all, left_shift_of, lies_between, left_shift_on, signed_extension, unsigned_extension};

use bounds::{Fact, may_hold};
use held_assign::Picks;
use mir_base::{Op, Operand, RelOp, Rhs};

// ---- shifts to the left

/// A variable shifted to the left.
#[derive(Clone, Copy, Debug, PartialEq, Eq)]
pub(crate) struct LeftShift {
    /// The variable.
    pub(crate) source: usize,
    /// By how many bits, from 1 to 63.
    pub(crate) distance: u32,
}

/// The choice of the right sides that are shifts of a variable to the left by a constant.
pub(crate) struct PickShifts;

impl Picks for PickShifts {
    ghost picked = { λ picks v rhs. shifts_variable rhs };

    fn picks(&self, _target: usize, rhs: Rhs) -> bool {
        shifts_variable(rhs)
    }
}

/// Whether a right side is a shift of a variable to the left by a constant from 1 to 63.
fn shifts_variable(rhs: Rhs) -> bool
    ensures { result ≡ shifts_variable rhs }
{
    match left_shift_of(rhs) {
        Some(_) => true,
        None => false,
    }
}

/// The shift of a variable to the left by a constant that a right side is, if it is one.
fn left_shift_of(rhs: Rhs) -> Option<LeftShift>
    ensures shift { result ≡ left_shift_of rhs }
    ensures far { IfSome result (λ shift. IsDistance shift.distance) }
{
    match rhs {
        Rhs::Plain(_) => None,
        Rhs::Unary(_, _) => None,
        Rhs::Binary(op, a, b) => match op {
            Op::Shl => left_shift_on(a, b),
            _ => None,
        },
    }
}

/// The shift of an operand by another, where the first is a variable and the second a constant from 1 to 63.
fn left_shift_on(a: Operand, b: Operand) -> Option<LeftShift>
    ensures shift { result ≡ left_shift_on a b }
    ensures far { IfSome result (λ shift. IsDistance shift.distance) }
{
    match a {
        Operand::Const(_) => None,
        Operand::Var(source) => match b {
            Operand::Var(_) => None,
            Operand::Const(c) => {
                if 1 <= c && c <= 63 {
                    Some(LeftShift {
                        source,
                        distance: c as u32,
                    })
                } else {
                    None
                }
            }
        },
    }
}

// ---- extensions

/// A variable that is extended, and the numbers that this keeps.
#[derive(Clone, Copy, Debug, PartialEq, Eq)]
pub(crate) struct Extension {
    /// The variable.
    pub(crate) source: usize,
    /// The least number that is kept.
    pub(crate) low: i64,
    /// The greatest.
    pub(crate) high: i64,
}

/// The extension that an operator with a constant on its right makes of a variable that holds this right side, if it
/// shifts back what that shifts to the left.
pub(crate) fn extension_held(op: Op, c: i64, held: Option<Rhs>) -> Option<Extension>
    ensures { result ≡ extension_held op c held }
{
    let shift = left_shift_of(held?)?;
    if c == i64::from(shift.distance) {
        extension_by(op, shift)
    } else {
        None
    }
}

/// The extension that an operator makes of a shift to the left, where it shifts back as far.
fn extension_by(op: Op, shift: LeftShift) -> Option<Extension>
    requires { IsDistance shift.distance }
    ensures { result ≡ extension_by op shift }
{
    match op {
        Op::Shra => Some(signed_extension(shift)),
        Op::Shr => Some(unsigned_extension(shift)),
        _ => None,
    }
}

/// The extension of the bits that a shift to the left leaves, with their sign.
fn signed_extension(shift: LeftShift) -> Extension
    requires { IsDistance shift.distance }
    ensures { result ≡ signed_extension shift }
{
    Extension {
        source: shift.source,
        low: least_signed(63 - shift.distance),
        high: most_unsigned(63 - shift.distance),
    }
}

/// The extension of these bits without a sign.
fn unsigned_extension(shift: LeftShift) -> Extension
    requires { IsDistance shift.distance }
    ensures { result ≡ unsigned_extension shift }
{
    Extension {
        source: shift.source,
        low: 0,
        high: most_unsigned(64 - shift.distance),
    }
}

/// The greatest number of so many bits, without a sign.
fn most_unsigned(bits: u32) -> i64
    requires { bits < 64 }
    ensures { result ≡ pos (2 ^ bits - 1) }
{
    ((1u64 << bits) - 1) as i64
}

/// The least number of so many bits and a sign before them.
fn least_signed(bits: u32) -> i64
    requires { bits < 64 }
    ensures { result ≡ neg_ℤ (pos (2 ^ bits)) }
{
    -most_unsigned(bits) - 1
}

// ---- what is kept

/// Whether an extension keeps all numbers of which a fact holds.
pub(crate) fn keeps_all(extension: Extension, fact: Fact) -> bool
    ensures { result ≡ keeps_all extension fact }
{
    lies_between(extension.low, extension.high, fact)
}

/// Whether all numbers of which a fact holds lie from the one number to the other.
fn lies_between(low: i64, high: i64, fact: Fact) -> bool
    ensures { result ≡ lies_between low high fact }
{
    !may_hold(RelOp::Lt, fact, Fact::Fixed(low)) && !may_hold(RelOp::Gt, fact, Fact::Fixed(high))
}
