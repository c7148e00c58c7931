// Nodes of a leaf with copies for their variables.
ghost use Rattle.std.specs.Prelude.{◌≡◌, ◌+◌, IfOk};
ghost use Rattle.flow_graph.specs.Numbering.{renamed_operand, renamed_rhs, renamed_test};
ghost use Rattle.unit_join.specs.Joins.{copy_number, leaf_node, leaf_place, returned_node};

use flow_graph::Node;
use mir_base::{Memory, Operand, Rhs, Test};
use std::alloc::AllocError;

/// Which variables of its caller are the copies of a leaf's variables.
#[derive(Clone, Copy)]
pub(crate) struct CopyNumbers {
    /// How many globals there are. They are shared by all units, so that each is its own copy.
    pub(crate) shared: usize,
    /// The copy of the first variable that is no global. Those of the others follow in order.
    pub(crate) base: usize,
}

/// The node of a leaf in its caller: its variables become their copies, and node m, which is not Start, has the number
/// `first + m - 1`. A Return gives its value to `into`, where the call has a variable, and leads to `next`.
pub(crate) fn leaf_node(
    node: &Node,
    to: CopyNumbers,
    first: usize,
    into: Option<usize>,
    next: usize,
) -> Result<Node, Memory>
    ensures { IfOk result (λ made.
        made ≡ leaf_node (copy_number to.shared to.base) (leaf_place first) into next node.now) }
{
    Ok(match node {
        Node::Start(succ) => Node::Skip(leaf_place(first, *succ)?),
        Node::Skip(succ) => Node::Skip(leaf_place(first, *succ)?),
        Node::Assign(x, rhs, succ) => {
            Node::Assign(
                copy(to, *x)?,
                copied_rhs(to, *rhs)?,
                leaf_place(first, *succ)?,
            )
        }
        Node::Print(a, succ) => Node::Print(copied(to, *a)?, leaf_place(first, *succ)?),
        Node::Guard(test, number, succ) => {
            Node::Guard(copied_test(to, *test)?, *number, leaf_place(first, *succ)?)
        }
        Node::Call(_, _, _, succ) => Node::Skip(leaf_place(first, *succ)?),
        Node::Test(test, taken, other) => Node::Test(
            copied_test(to, *test)?,
            leaf_place(first, *taken)?,
            leaf_place(first, *other)?,
        ),
        Node::Return(a) => returned(into, copied(to, *a)?, next),
    })
}

/// What a Return of `a` becomes: the assignment of `a` to `into`, and a Skip where the call has no variable.
fn returned(into: Option<usize>, a: Operand, next: usize) -> Node
    ensures { result ≡ returned_node into a next }
{
    match into {
        None => Node::Skip(next),
        Some(x) => Node::Assign(x, Rhs::Plain(a), next),
    }
}

/// The number, in the caller, of the node that stands for node m of a leaf whose nodes behind Start begin at `first`.
pub(crate) fn leaf_place(first: usize, m: usize) -> Result<usize, Memory>
    ensures { IfOk result (λ place. place ≡ leaf_place first m) }
{
    plus(first, m.saturating_sub(1))
}

/// The number of the copy of a variable.
pub(crate) fn copy(to: CopyNumbers, x: usize) -> Result<usize, Memory>
    ensures { IfOk result (λ number. number ≡ copy_number to.shared to.base x) }
{
    if x < to.shared {
        return Ok(x);
    }
    let number = plus(to.base, x - to.shared)?;
    Ok(number)
}

/// The sum of two numbers of variables or nodes. It answers `Memory` where the sum is 2^64 or more.
pub(crate) fn plus(a: usize, b: usize) -> Result<usize, Memory>
    ensures { IfOk result (λ sum. sum ≡ a + b) }
{
    a.checked_add(b).ok_or(AllocError)
}

/// The operand with a copy for its variable.
fn copied(to: CopyNumbers, a: Operand) -> Result<Operand, Memory>
    ensures { IfOk result (λ made. made ≡ renamed_operand (copy_number to.shared to.base) a) }
{
    match a {
        Operand::Var(x) => Ok(Operand::Var(copy(to, x)?)),
        Operand::Const(c) => Ok(Operand::Const(c)),
    }
}

/// The right side with copies for its variables.
fn copied_rhs(to: CopyNumbers, rhs: Rhs) -> Result<Rhs, Memory>
    ensures { IfOk result (λ made. made ≡ renamed_rhs (copy_number to.shared to.base) rhs) }
{
    match rhs {
        Rhs::Plain(a) => Ok(Rhs::Plain(copied(to, a)?)),
        Rhs::Unary(op, a) => Ok(Rhs::Unary(op, copied(to, a)?)),
        Rhs::Binary(op, a, b) => Ok(Rhs::Binary(op, copied(to, a)?, copied(to, b)?)),
    }
}

/// The test with copies for its variables.
fn copied_test(to: CopyNumbers, test: Test) -> Result<Test, Memory>
    ensures { IfOk result (λ made. made ≡ renamed_test (copy_number to.shared to.base) test) }
{
    match test {
        Test::Rel(op, a, b) => Ok(Test::Rel(op, copied(to, a)?, copied(to, b)?)),
        Test::Holds(a) => Ok(Test::Holds(copied(to, a)?)),
        Test::Fails(a) => Ok(Test::Fails(copied(to, a)?)),
    }
}
