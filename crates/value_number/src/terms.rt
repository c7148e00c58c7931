// Terms in a table: a term is a number, and no tree is built.
ghost use Rattle.std.specs.Prelude.{◌≡◌, ℕ, ◌<◌, length, slice_get, IfOk, OnOk, Some};
ghost use Rattle.mir_base.specs.Shapes.{AllBelow, operand_vars, rhs_vars};
ghost use Rattle.key_table.specs.Keys.{IsWithKey};
ghost use Rattle.value_number.specs.Entries.{GainsEntriesFor};
ghost use Rattle.value_number.specs.Table.{Represent, StandOn, Stands, Stay};
ghost use Rattle.value_number.specs.Terms.{Terms, operand_term, rhs_term};

use key_table::KeyTable;
use mir_base::{Memory, Op, Operand, Rhs, UnOp};

/// A term, whose operands are named by their numbers in the table.
#[derive(Clone, Copy, Debug, PartialEq, Eq, Hash)]
pub enum TermKey {
    /// The value that this variable has before this root.
    Initial(usize, usize),
    /// The value that this node gives this variable.
    Opaque(usize, usize),
    /// This number.
    Number(i64),
    /// An operator on the term of this number.
    Unary(UnOp, usize),
    /// An operator on the terms of these numbers.
    Binary(Op, usize, usize),
}

/// The number of a term, which is a new one where it has none. It fails only with `Memory`.
pub(crate) fn term_number(table: &mut KeyTable<TermKey>, key: TermKey) -> Result<usize, Memory>
    ensures here { IfOk result (λ n. slice_get table.new n ≡ Some key) }
    ensures stay { OnOk result (Stay table.old table.new) }
    ensures with_key { OnOk result (IsWithKey table.old key table.new) }
    ensures only { IfOk result (λ n. (k : ℕ) → slice_get table.new k ≡ Some key → k ≡ n) }
{
    let number = table.number(key)?;
    let _distinct = table.len();
    Ok(number)
}

/// The number of the term of a right side that does not divide, where `numbers` are those of the variables. It fails
/// only with `Memory`.
pub(crate) fn rhs_number(
    table: &mut KeyTable<TermKey>,
    numbers: &[Option<usize>],
    root: usize,
    rhs: Rhs,
) -> Result<usize, Memory>
    requires { AllBelow (length numbers.now) (rhs_vars rhs) }
    ensures stands { IfOk result (λ n. (terms : Terms)
        → Represent table.old numbers.now root terms
        → Stands table.new n (rhs_term terms rhs)) }
    ensures stay { OnOk result (Stay table.old table.new) }
    ensures all { OnOk result (StandOn table.old numbers.now root table.new) }
    ensures grows { IfOk result (λ n. GainsEntriesFor numbers.now root n table.old table.new) }
{
    match rhs {
        Rhs::Plain(a) => operand_number(table, numbers, root, a),
        Rhs::Unary(op, a) => {
            let n = operand_number(table, numbers, root, a)?;
            term_number(table, TermKey::Unary(op, n))
        }
        Rhs::Binary(op, a, b) => {
            let n = operand_number(table, numbers, root, a)?;
            let m = operand_number(table, numbers, root, b)?;
            term_number(table, TermKey::Binary(op, n, m))
        }
    }
}

/// The number of the term of an operand, where `numbers` are those of the variables.
fn operand_number(
    table: &mut KeyTable<TermKey>,
    numbers: &[Option<usize>],
    root: usize,
    a: Operand,
) -> Result<usize, Memory>
    requires { AllBelow (length numbers.now) (operand_vars a) }
    ensures stands { IfOk result (λ n. (terms : Terms)
        → Represent table.old numbers.now root terms
        → Stands table.new n (operand_term terms a)) }
    ensures stay { OnOk result (Stay table.old table.new) }
    ensures all { OnOk result (StandOn table.old numbers.now root table.new) }
    ensures grows { IfOk result (λ n. GainsEntriesFor numbers.now root n table.old table.new) }
{
    match a {
        Operand::Var(x) => match numbers[x] {
            Some(number) => Ok(number),
            None => term_number(table, TermKey::Initial(x, root)),
        },
        Operand::Const(c) => term_number(table, TermKey::Number(c)),
    }
}
