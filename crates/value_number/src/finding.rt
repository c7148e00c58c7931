// What is found at one node: which variable has the term of its right side, and which number its variable gets.
ghost use Rattle.std.specs.Prelude.{◌≡◌, ℕ, ◌<◌, false, List, Option, None, Some, IfOk, length};
ghost use Rattle.mir_base.specs.declared.instructions.Operand.{Operand};
ghost use Rattle.mir_base.specs.Expressions.{divides};
ghost use Rattle.mir_base.specs.Shapes.{AllBelow, AllDiffer, into_vars, rhs_vars};
ghost use Rattle.flow_graph.specs.declared.nodes.Node.TheVariants.{Assign, Call};
ghost use Rattle.flow_graph.specs.Graphs.{node_vars};
ghost use Rattle.value_number.specs.declared.terms.TermKey.{TermKey};
ghost use Rattle.value_number.specs.Numbered.{IsHolder};
ghost use Rattle.value_number.specs.Table.{Represent, Stands, Stay};
ghost use Rattle.value_number.specs.Terms.{Terms, movable_rhs_term, rhs_term};
ghost use Rattle.value_number.specs.TermWalks.{Finds};

use crate::numbers::TermNumbers;
use crate::terms::{TermKey, rhs_number, term_number};
use flow_graph::Node;
use key_table::KeyTable;
use mir_base::{Memory, Rhs, divides};

/// A variable gets a term.
#[derive(Clone, Copy, Debug)]
pub(crate) struct NewTerm {
    /// The variable.
    pub(crate) variable: usize,
    /// The number of the term.
    pub(crate) number: usize,
}

/// What is found at a node.
#[derive(Clone, Copy, Debug)]
pub(crate) struct AtNode {
    /// The first variable that has the term of the node's movable right side, where there is one.
    pub(crate) holder: Option<usize>,
    /// The term that the node gives a variable, where it gives one. Those that a call gives the globals come besides.
    pub(crate) change: Option<NewTerm>,
}

/// What is found at node `n`, which is this one, where `numbers` are those of the variables before it. It fails only
/// with `Memory`. A variable is looked for only where the table had the term before.
pub(crate) fn find(
    table: &mut KeyTable<TermKey>,
    numbers: &mut TermNumbers,
    root: usize,
    n: usize,
    node: &Node,
) -> Result<AtNode, Memory>
    requires { AllBelow (length numbers.old) (node_vars node.now) }
    ensures finds { IfOk result (Finds table.old table.new numbers.old root n node.now) }
    ensures same { numbers.new ≡ numbers.old }
{
    match node {
        Node::Start(_) => Ok(NOTHING),
        Node::Skip(_) => Ok(NOTHING),
        Node::Assign(x, rhs, next) => {
            let found = assigned(table, numbers, root, n, *x, *rhs, *next)?;
            Ok(found)
        }
        Node::Print(_, _) => Ok(NOTHING),
        Node::Guard(_, _, _) => Ok(NOTHING),
        Node::Call(into, _, _, _) => {
            let found = called(table, n, *into)?;
            Ok(found)
        }
        Node::Test(_, _, _) => Ok(NOTHING),
        Node::Return(_) => Ok(NOTHING),
    }
}

/// No holder, and no change.
const NOTHING: AtNode = AtNode {
    holder: None,
    change: None,
};

/// What is found at node `n`, which calls a unit, whose result goes to this variable, where there is one.
fn called(table: &mut KeyTable<TermKey>, n: usize, into: Option<usize>) -> Result<AtNode, Memory>
    ensures { IfOk result (λ found. (numbers : List (Option ℕ)) (root unit next : ℕ)
        (operands : List Operand) → AllBelow (length numbers) (into_vars into)
        → Finds table.old table.new numbers root n (Call into unit operands next) found) }
{
    match into {
        None => Ok(NOTHING),
        Some(x) => {
            let number = term_number(table, TermKey::Opaque(n, x))?;
            Ok(changes(None, x, number))
        }
    }
}

/// What is found at node `n`, which assigns this right side to this variable.
fn assigned(
    table: &mut KeyTable<TermKey>,
    numbers: &mut TermNumbers,
    root: usize,
    n: usize,
    x: usize,
    rhs: Rhs,
    next: usize,
) -> Result<AtNode, Memory>
    requires within { x < length numbers.old }
    requires below { AllBelow (length numbers.old) (rhs_vars rhs) }
    ensures finds { IfOk result
        (Finds table.old table.new numbers.old root n (Assign x rhs next)) }
    ensures same { numbers.new ≡ numbers.old }
{
    let _ = next;
    if divides(&rhs) {
        let number = term_number(table, TermKey::Opaque(n, x))?;
        Ok(changes(None, x, number))
    } else {
        let known = table.len();
        let number = rhs_number(table, numbers.as_slice(), root, rhs)?;
        let _distinct = table.len();
        Ok(changes(holder(numbers, rhs, number, known), x, number))
    }
}

/// This holder, and the change of the variable to the term of this number.
fn changes(holder: Option<usize>, variable: usize, number: usize) -> AtNode
    ensures holder { result.holder ≡ holder }
    ensures change { result.change ≡ Some (record { variable = variable; number = number }) }
{
    AtNode {
        holder,
        change: Some(NewTerm { variable, number }),
    }
}

/// The first variable whose number is that of the term of a right side, which does not divide; none for a plain one.
/// Before it the table had so many terms, so a number that is not below has been given to no variable yet.
fn holder(numbers: &mut TermNumbers, rhs: Rhs, number: usize, known: usize) -> Option<usize>
    requires { divides rhs ≡ false }
    ensures holder { (old new : List TermKey) (root : ℕ) (terms : Terms)
        → length old ≡ known → Stay old new → AllDiffer new
        → Represent old numbers.old root terms → Stands new number (rhs_term terms rhs)
        → IsHolder (length numbers.old) terms (movable_rhs_term terms rhs) result }
    ensures same { numbers.new ≡ numbers.old }
{
    if number < known {
        known_holder(numbers, rhs, number)
    } else {
        None
    }
}

/// The same, where the table had the term.
fn known_holder(numbers: &mut TermNumbers, rhs: Rhs, number: usize) -> Option<usize>
    requires { divides rhs ≡ false }
    ensures holder { (table : List TermKey) (root : ℕ) (terms : Terms) → AllDiffer table
        → Represent table numbers.old root terms → Stands table number (rhs_term terms rhs)
        → IsHolder (length numbers.old) terms (movable_rhs_term terms rhs) result }
    ensures same { numbers.new ≡ numbers.old }
{
    match rhs {
        Rhs::Plain(_) => None,
        Rhs::Unary(_, _) => numbers.first_with(number),
        Rhs::Binary(_, _, _) => numbers.first_with(number),
    }
}
