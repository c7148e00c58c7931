// The nodes with what is read in the place of copies.
ghost use Rattle.std.specs.Prelude.{◌≡◌, map, IfOk};
ghost use Rattle.flow_graph.specs.Numbering.{renamed_operand, renamed_rhs, renamed_test};
ghost use Rattle.copy_flow.specs.Copied.{assigned_unless_itself, copied_node, reread_node};
ghost use Rattle.copy_flow.specs.ByRows.{IsAtNode, read_at};
ghost use Rattle.copy_flow.specs.Meaning.{copied_does};
ghost use Rattle.copy_flow.specs.Shapes.{copied_in_place, copied_reads};

use crate::picking::{PickCopies, is_var, read_for};
use flow_graph::Node;
use held_assign::{HeldAssigns, HeldPass};
use mir_base::{Args, Memory, Operand, Rhs, Test};
use std::alloc::Global;

impl HeldPass for PickCopies {
    ghost becomes = { copied_node };

    fn node(
        &self,
        alloc: Global,
        held: &HeldAssigns,
        n: usize,
        node: &Node,
    ) -> Result<Node, Memory> {
        let at = HeldAt { held, node: n };
        let made = at.node(alloc, node)?;
        Ok(made)
    }

    ghost in_place = { copied_in_place };

    ghost reads = { copied_reads };

    ghost does = { λ pass. copied_does };
}

/// The copies of a graph, looked up at a node.
#[derive(Clone, Copy)]
struct HeldAt<'a> {
    held: &'a HeldAssigns,
    node: usize,
}

impl<'a> HeldAt<'a> {
    /// The node with the variable that is read for each of its variable operands; where it then assigns a variable to
    /// itself, a Skip. It fails only with `Memory`.
    fn node(&self, alloc: Global, node: &Node) -> Result<Node, Memory>
        requires { IsAtNode self.now }
        ensures { IfOk result (λ made. made ≡ reread_node (read_at self.now) node.now) }
    {
        match node {
            Node::Start(next) => Ok(Node::Start(*next)),
            Node::Skip(next) => Ok(Node::Skip(*next)),
            Node::Assign(x, rhs, next) => Ok(assigned_unless_itself(*x, self.rhs(*rhs), *next)),
            Node::Print(a, next) => Ok(Node::Print(self.operand(*a), *next)),
            Node::Guard(test, number, next) => Ok(Node::Guard(self.test(*test), *number, *next)),
            Node::Call(into, unit, args, next) => {
                let operands = self.operands(alloc, args.items())?;
                let args = Args::of(alloc, operands.as_slice())?;
                Ok(Node::Call(*into, *unit, args, *next))
            }
            Node::Test(test, taken, other) => Ok(Node::Test(self.test(*test), *taken, *other)),
            Node::Return(a) => Ok(Node::Return(self.operand(*a))),
        }
    }

    /// What a right side becomes.
    fn rhs(&self, rhs: Rhs) -> Rhs
        requires { IsAtNode self.now }
        ensures { result ≡ renamed_rhs (read_at self.now) rhs }
    {
        match rhs {
            Rhs::Plain(a) => Rhs::Plain(self.operand(a)),
            Rhs::Unary(op, a) => Rhs::Unary(op, self.operand(a)),
            Rhs::Binary(op, a, b) => Rhs::Binary(op, self.operand(a), self.operand(b)),
        }
    }

    /// What a test becomes.
    fn test(&self, test: Test) -> Test
        requires { IsAtNode self.now }
        ensures { result ≡ renamed_test (read_at self.now) test }
    {
        match test {
            Test::Rel(op, a, b) => Test::Rel(op, self.operand(a), self.operand(b)),
            Test::Holds(a) => Test::Holds(self.operand(a)),
            Test::Fails(a) => Test::Fails(self.operand(a)),
        }
    }

    /// What the arguments of a call become.
    fn operands(&self, alloc: Global, operands: &[Operand]) -> Result<Vec<Operand>, Memory>
        requires { IsAtNode self.now }
        ensures { IfOk result (λ all.
            all.items ≡ map (renamed_operand (read_at self.now)) operands.now) }
    {
        let mut all = Vec::with_capacity(alloc, operands.len())?;
        for a in operands {
            all.push(self.operand(*a))?;
        }
        Ok(all)
    }

    /// What an operand becomes.
    fn operand(&self, a: Operand) -> Operand
        requires { IsAtNode self.now }
        ensures { result ≡ renamed_operand (read_at self.now) a }
    {
        match a {
            Operand::Var(x) => Operand::Var(self.read(x)),
            Operand::Const(c) => Operand::Const(c),
        }
    }

    /// The variable that is read for this one.
    fn read(&self, var: usize) -> usize
        requires { IsAtNode self.now }
        ensures { result ≡ read_at self.now var }
    {
        read_for(var, self.held.rhs_at(self.node, var))
    }
}

/// The assignment, or a Skip where it assigns a variable to itself.
fn assigned_unless_itself(x: usize, rhs: Rhs, next: usize) -> Node
    ensures { result ≡ assigned_unless_itself x rhs next }
{
    if is_var(x, rhs) {
        Node::Skip(next)
    } else {
        Node::Assign(x, rhs, next)
    }
}
