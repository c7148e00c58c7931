// Which assignments are copies, and what is read where one holds.
ghost use Rattle.std.specs.Prelude.{◌≡◌};
ghost use Rattle.copy_flow.specs.Copies.{is_copy, is_var, read_for};

use held_assign::Picks;
use mir_base::{Operand, Rhs};

/// The choice of the assignments that are copies: those whose right side is a variable.
pub struct PickCopies;

impl Picks for PickCopies {
    ghost picked = { λ picks v rhs. is_copy v rhs };

    fn picks(&self, _target: usize, rhs: Rhs) -> bool {
        match rhs {
            Rhs::Plain(Operand::Var(_)) => true,
            _ => false,
        }
    }
}

/// Whether a right side is this variable alone.
pub(crate) fn is_var(x: usize, rhs: Rhs) -> bool
    ensures { result ≡ is_var x rhs }
{
    match rhs {
        Rhs::Plain(Operand::Var(y)) => x == y,
        _ => false,
    }
}

/// The variable that is read for `var` where this right side holds for it: the one that it is, or `var` itself where it
/// is none.
pub(crate) fn read_for(var: usize, rhs: Option<Rhs>) -> usize
    ensures { result ≡ read_for var rhs }
{
    match rhs {
        Some(Rhs::Plain(Operand::Var(source))) => source,
        _ => var,
    }
}
