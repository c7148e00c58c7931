// The facts of variables, operands and right sides.
ghost use Rattle.std.specs.Prelude.{◌≡◌};
ghost use Rattle.bounds.specs.Edges.{anything, fact_at, fact_of, fact_of_rhs, with_fact};

use crate::ends::End;
use crate::facts::Fact;
use crate::rules::{bounds_of, bounds_of_un};
use cond_flow::Facts;
use mir_base::{Operand, Rhs};

/// The fact that holds of all numbers.
pub(crate) fn anything() -> Fact
    ensures { result ≡ anything }
{
    Fact::Between(End::Least, End::Greatest)
}

/// The fact of a variable.
pub(crate) fn fact_at(facts: &Facts<Fact>, x: usize) -> Fact
    ensures { result ≡ fact_at facts.now x }
{
    facts.get(x, anything())
}

/// The fact of an operand.
pub(crate) fn fact_of(facts: &Facts<Fact>, a: Operand) -> Fact
    ensures { result ≡ fact_of facts.now a }
{
    match a {
        Operand::Var(x) => fact_at(facts, x),
        Operand::Const(c) => Fact::Fixed(c),
    }
}

/// The fact of a right side.
pub(crate) fn fact_of_rhs(facts: &Facts<Fact>, rhs: Rhs) -> Fact
    ensures { result ≡ fact_of_rhs facts.now rhs }
{
    match rhs {
        Rhs::Plain(a) => fact_of(facts, a),
        Rhs::Unary(op, a) => bounds_of_un(op, fact_of(facts, a)),
        Rhs::Binary(op, a, b) => bounds_of(op, fact_of(facts, a), fact_of(facts, b)),
    }
}

/// Sets the fact of an operand, if it is a variable.
pub(crate) fn put_fact(facts: &mut Facts<Fact>, a: Operand, fact: Fact)
    ensures { facts.new ≡ with_fact a fact facts.old }
{
    match a {
        Operand::Var(x) => facts.set(x, fact),
        Operand::Const(_) => (),
    }
}
