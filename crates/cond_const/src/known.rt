// What is known of variables, and what operands, right sides and tests become by it.
ghost use Rattle.std.specs.Prelude.{◌≡◌, true};
ghost use Rattle.mir_base.specs.declared.instructions.Operand.TheVariants.{Const};
ghost use Rattle.cond_const.specs.States.{joined_known};
ghost use Rattle.cond_const.specs.Folding.{by_identity, decided_relation, decided_test, folded_binary, folded_rhs, known_rhs, may_go, relates_itself, resolved};

use crate::identities::{Identity, identity_left, identity_right, identity_same};
use cond_flow::Facts;
use mir_base::{Op, Operand, RelOp, Rhs, Test, eval, eval1, relates};

/// What is known of a variable before a node.
#[derive(Clone, Copy, Debug, PartialEq, Eq)]
pub enum Known {
    /// It has this value.
    Fixed(i64),
    /// It may have different values.
    Varying,
}

/// What is known where two paths meet: equal constants stay, and everything else is varying.
pub(crate) fn joined_known(x: Known, y: Known) -> Known
    ensures { result ≡ joined_known x y }
{
    match x {
        Known::Fixed(a) => match y {
            Known::Fixed(b) => { if a == b { x } else { Known::Varying } }
            Known::Varying => Known::Varying,
        },
        Known::Varying => Known::Varying,
    }
}

/// Whether the same is known.
pub(crate) fn are_same(x: Known, y: Known) -> bool
    ensures same { result ≡ true → x ≡ y }
    ensures differ { x ≡ y → result ≡ true }
{
    match x {
        Known::Fixed(a) => match y {
            Known::Fixed(b) => a == b,
            Known::Varying => false,
        },
        Known::Varying => match y {
            Known::Fixed(_) => false,
            Known::Varying => true,
        },
    }
}

/// What is known of a right side: the constant that it becomes, if it becomes one.
pub(crate) fn known_rhs(known: &Facts<Known>, rhs: Rhs) -> Known
    ensures { result ≡ known_rhs known.now rhs }
{
    match folded_rhs(known, rhs) {
        Rhs::Plain(Operand::Const(c)) => Known::Fixed(c),
        Rhs::Plain(Operand::Var(_)) => Known::Varying,
        Rhs::Unary(_, _) => Known::Varying,
        Rhs::Binary(_, _, _) => Known::Varying,
    }
}

/// What a right side becomes: the analysis and the rewriting both ask here.
pub(crate) fn folded_rhs(known: &Facts<Known>, rhs: Rhs) -> Rhs
    ensures { result ≡ folded_rhs known.now rhs }
{
    match rhs {
        Rhs::Plain(a) => Rhs::Plain(resolved(known, a)),
        Rhs::Unary(op, a) => match resolved(known, a) {
            Operand::Var(x) => Rhs::Unary(op, Operand::Var(x)),
            Operand::Const(c) => Rhs::Plain(Operand::Const(eval1(op, c))),
        },
        Rhs::Binary(op, a, b) => folded_binary(op, resolved(known, a), resolved(known, b)),
    }
}

/// What an operator on two operands becomes whose variables are varying.
fn folded_binary(op: Op, a: Operand, b: Operand) -> Rhs
    ensures { result ≡ folded_binary op a b }
{
    let whole = Rhs::Binary(op, a, b);
    match a {
        Operand::Const(c) => match b {
            Operand::Const(d) => folded_constants(op, c, d),
            Operand::Var(_) => by_identity(identity_left(op, c), b, whole),
        },
        Operand::Var(x) => match b {
            Operand::Const(d) => by_identity(identity_right(op, d), a, whole),
            Operand::Var(y) => {
                if x == y {
                    by_identity(identity_same(op), a, whole)
                } else {
                    whole
                }
            }
        },
    }
}

/// What an operator on two constants becomes: its value, unless it traps.
fn folded_constants(op: Op, c: i64, d: i64) -> Rhs
    ensures { result ≡ folded_binary op (Const c) (Const d) }
{
    match eval(op, c, d) {
        Err(_) => Rhs::Binary(op, Operand::Const(c), Operand::Const(d)),
        Ok(v) => Rhs::Plain(Operand::Const(v)),
    }
}

/// What a right side becomes by an identity of its operator and its variable.
fn by_identity(identity: Identity, variable: Operand, rhs: Rhs) -> Rhs
    ensures { result ≡ by_identity identity variable rhs }
{
    match identity {
        Identity::Absent => rhs,
        Identity::Itself => Rhs::Plain(variable),
        Identity::Always(c) => Rhs::Plain(Operand::Const(c)),
    }
}

/// The operand, or the constant that its variable is known to have.
pub(crate) fn resolved(known: &Facts<Known>, a: Operand) -> Operand
    ensures { result ≡ resolved known.now a }
{
    match a {
        Operand::Const(c) => Operand::Const(c),
        Operand::Var(x) => match known.get(x, Known::Varying) {
            Known::Fixed(c) => Operand::Const(c),
            Known::Varying => Operand::Var(x),
        },
    }
}

/// Whether a test holds, where that is decided.
fn decided_test(known: &Facts<Known>, test: Test) -> Option<bool>
    ensures { result ≡ decided_test known.now test }
{
    match test {
        Test::Rel(op, a, b) => decided_relation(op, resolved(known, a), resolved(known, b)),
        Test::Holds(a) => match resolved(known, a) {
            Operand::Var(_) => None,
            Operand::Const(c) => Some(c != 0),
        },
        Test::Fails(a) => match resolved(known, a) {
            Operand::Var(_) => None,
            Operand::Const(c) => Some(c == 0),
        },
    }
}

/// Whether a test may have this truth value.
pub(crate) fn may_go(known: &Facts<Known>, test: Test, truth: bool) -> bool
    ensures { result ≡ may_go test truth known.now }
{
    match decided_test(known, test) {
        None => true,
        Some(holds) => if truth { holds } else { !holds },
    }
}

/// Whether a relation holds between operands whose variables are varying, where that is decided.
fn decided_relation(op: RelOp, a: Operand, b: Operand) -> Option<bool>
    ensures { result ≡ decided_relation op a b }
{
    match a {
        Operand::Const(c) => match b {
            Operand::Const(d) => Some(relates(op, c, d)),
            Operand::Var(_) => None,
        },
        Operand::Var(x) => match b {
            Operand::Const(_) => None,
            Operand::Var(y) => {
                if x == y {
                    Some(relates_itself(op))
                } else {
                    None
                }
            }
        },
    }
}

/// Whether the relation holds between a number and itself.
fn relates_itself(op: RelOp) -> bool
    ensures { result ≡ relates_itself op }
{
    relates(op, 0, 0)
}
