// Which right sides are shifts to the left, and which shift each is.
ghost use Rattle.std.specs.Prelude.{◌≡◌};
ghost use Rattle.wanted_bits.specs.Shifts.{shift_held, shift_of, shift_on, shifts_left};

use crate::wanting::distance;
use held_assign::Picks;
use mir_base::{Op, Operand, Rhs};

/// A variable, shifted to the left.
#[derive(Clone, Copy, Debug, PartialEq, Eq)]
pub struct Shift {
    /// The variable that is shifted.
    pub source: usize,
    /// By how many places, below 64.
    pub distance: u8,
}

/// The choice of the right sides that are shifts of a variable to the left by a constant from 0 to 63. Those whose
/// constant is written as another number are not looked at.
pub(crate) struct PickShifts;

impl Picks for PickShifts {
    ghost picked = { λ picks v rhs. shifts_left rhs };

    fn picks(&self, _target: usize, rhs: Rhs) -> bool {
        shifts_left(rhs)
    }
}

/// Whether a right side is a shift of a variable to the left by a constant from 0 to 63.
fn shifts_left(rhs: Rhs) -> bool
    ensures { result ≡ shifts_left rhs }
{
    match shift_of(rhs) {
        Some(_) => true,
        None => false,
    }
}

/// The shift of the variable that holds this right side, where it is one.
pub(crate) fn shift_held(held: Option<Rhs>) -> Option<Shift>
    ensures { result ≡ shift_held held }
{
    shift_of(held?)
}

/// The shift that a right side is, where it is one.
fn shift_of(rhs: Rhs) -> Option<Shift>
    ensures { result ≡ shift_of rhs }
{
    match rhs {
        Rhs::Plain(_) => None,
        Rhs::Unary(_, _) => None,
        Rhs::Binary(op, a, b) => match op {
            Op::Shl => shift_on(a, b),
            _ => None,
        },
    }
}

/// The shift of an operand by another, where the first is a variable and the second a constant from 0 to 63.
fn shift_on(a: Operand, b: Operand) -> Option<Shift>
    ensures { result ≡ shift_on a b }
{
    match a {
        Operand::Const(_) => None,
        Operand::Var(source) => match b {
            Operand::Var(_) => None,
            Operand::Const(c) => {
                if 0 <= c && c <= 63 {
                    Some(Shift {
                        source,
                        distance: distance(c),
                    })
                } else {
                    None
                }
            }
        },
    }
}
