// The nodes of a graph.
ghost use Rattle.std.specs.Prelude.{◌≡◌, length, slice_get};
ghost use Rattle.flow_graph.specs.Graphs.{node_succs, SuccsBelow};
ghost use Rattle.flow_graph.specs.Retained.{redirected_by};

use mir_base::{Args, Operand, Rhs, Test};
use std::alloc::AllocError;

/// A node. Variables and units are named by their numbers, as in an instruction. The last numbers are the successors:
/// the nodes at which a run may go on.
#[derive(Drop)]
pub enum Node {
    /// All variables but the globals become 0, and the received ones get the arguments.
    Start(usize),
    /// Nothing is done.
    Skip(usize),
    /// The variable gets the value of the right side.
    Assign(usize, Rhs, usize),
    /// The number is printed.
    Print(Operand, usize),
    /// The run traps with this number where the test holds, and goes on otherwise.
    Guard(Test, u8, usize),
    /// The unit of this number is called with these arguments. Its result goes to the variable, where there is one.
    Call(Option<usize>, usize, Args, usize),
    /// The run goes on at the first successor, `taken`, where the test holds, and at the second, `other`, otherwise.
    Test(Test, usize, usize),
    /// The unit returns this number.
    Return(Operand),
}

impl Clone for Node {
    ghost is_clone = { λ node copy. copy ≡ node };

    fn clone(&self) -> Result<Node, AllocError> {
        Ok(match self {
            Node::Start(next) => Node::Start(*next),
            Node::Skip(next) => Node::Skip(*next),
            Node::Assign(x, rhs, next) => Node::Assign(*x, *rhs, *next),
            Node::Print(a, next) => Node::Print(*a, *next),
            Node::Guard(test, number, next) => Node::Guard(*test, *number, *next),
            Node::Call(into, unit, args, next) => Node::Call(*into, *unit, args.clone()?, *next),
            Node::Test(test, taken, other) => Node::Test(*test, *taken, *other),
            Node::Return(a) => Node::Return(*a),
        })
    }
}

impl Node {
    /// The first successor: the only one, or `taken`; none of a Return.
    #[inline(always)]
    pub(crate) fn first_succ(&self) -> Option<usize>
        ensures { result ≡ slice_get (node_succs self.now) 0 }
    {
        match self {
            Node::Start(next) => Some(*next),
            Node::Skip(next) => Some(*next),
            Node::Assign(_, _, next) => Some(*next),
            Node::Print(_, next) => Some(*next),
            Node::Guard(_, _, next) => Some(*next),
            Node::Call(_, _, _, next) => Some(*next),
            Node::Test(_, taken, _) => Some(*taken),
            Node::Return(_) => None,
        }
    }

    /// The second successor: the `other` of a Test.
    #[inline(always)]
    pub(crate) fn second_succ(&self) -> Option<usize>
        ensures { result ≡ slice_get (node_succs self.now) 1 }
    {
        match self {
            Node::Test(_, _, other) => Some(*other),
            _ => None,
        }
    }
}

/// The node with other successors: `to[s]` in the place of each successor `s`, which is an index into `to`. It does not
/// allocate.
pub fn redirect(node: Node, to: &[usize]) -> Node
    requires { SuccsBelow (length to.now) node }
    ensures { result ≡ redirected_by to.now node }
{
    let mut redirected = node;
    redirect_in_place(&mut redirected, to);
    redirected
}

/// Gives the node other successors, as `redirect` does, where it stands. It does not allocate.
pub fn redirect_in_place(node: &mut Node, to: &[usize])
    requires { SuccsBelow (length to.now) node.old }
    ensures { node.new ≡ redirected_by to.now node.old }
{
    match node {
        Node::Start(next) => *next = to[*next],
        Node::Skip(next) => *next = to[*next],
        Node::Assign(_, _, next) => *next = to[*next],
        Node::Print(_, next) => *next = to[*next],
        Node::Guard(_, _, next) => *next = to[*next],
        Node::Call(_, _, _, next) => *next = to[*next],
        Node::Test(_, taken, other) => {
            *taken = to[*taken];
            *other = to[*other];
        }
        Node::Return(_) => {}
    }
}
