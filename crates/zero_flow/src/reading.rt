// The facts of variables, operands and right sides.
ghost use Rattle.std.specs.Prelude.{◌≡◌};
ghost use Rattle.zero_flow.specs.ZeroRules.{may_be_nought};
ghost use Rattle.zero_flow.specs.Zeros.{with_zero, zero_of, zero_of_number, zero_of_rhs};

use crate::facts::ZeroFact;
use crate::pairs::{zeros_of, zeros_of_un};
use cond_flow::Facts;
use mir_base::{Operand, Rhs};

/// The fact of a number.
fn zero_of_number(c: i64) -> ZeroFact
    ensures { result ≡ zero_of_number c }
{
    if c == 0 {
        ZeroFact::Zero
    } else {
        ZeroFact::NotZero
    }
}

/// The fact of an operand.
pub(crate) fn zero_of(facts: &Facts<ZeroFact>, a: Operand) -> ZeroFact
    ensures { result ≡ zero_of facts.now a }
{
    match a {
        Operand::Var(x) => facts.get(x, ZeroFact::Any),
        Operand::Const(c) => zero_of_number(c),
    }
}

/// The fact of a right side.
pub(crate) fn zero_of_rhs(facts: &Facts<ZeroFact>, rhs: Rhs) -> ZeroFact
    ensures { result ≡ zero_of_rhs facts.now rhs }
{
    match rhs {
        Rhs::Plain(a) => zero_of(facts, a),
        Rhs::Unary(op, a) => zeros_of_un(op, zero_of(facts, a)),
        Rhs::Binary(op, a, b) => zeros_of(op, zero_of(facts, a), zero_of(facts, b)),
    }
}

/// Sets the fact of an operand, if it is a variable.
pub(crate) fn put_zero(facts: &mut Facts<ZeroFact>, a: Operand, fact: ZeroFact)
    ensures { facts.new ≡ with_zero a fact facts.old }
{
    match a {
        Operand::Var(x) => facts.set(x, fact),
        Operand::Const(_) => (),
    }
}

/// Whether an operand may be 0, by what is known of the variables by their numbers. It does not allocate.
pub fn may_be_nought(known: &[ZeroFact], a: Operand) -> bool
    ensures { result ≡ may_be_nought known.now a }
{
    match a {
        Operand::Var(x) => {
            if x < known.len() {
                known[x].may_be_zero()
            } else {
                true
            }
        }
        Operand::Const(c) => zero_of_number(c).may_be_zero(),
    }
}
