// The graph in which no bits are computed that are not wanted.
ghost use Rattle.std.specs.Prelude.{◌≡◌, ◌≤◌, [], length, IfOk};
ghost use Rattle.flow_graph.specs.declared.nodes.Node.TheVariants.{Assign};
ghost use Rattle.flow_graph.specs.Passes.{GraphDividesUnchanged, GraphKeeps};
ghost use Rattle.wanted_bits.specs.BitsOrder.{HasFew};
ghost use Rattle.wanted_bits.specs.Found.{AreFoundNodes, AreListed, narrowed_by};
ghost use Rattle.wanted_bits.specs.Asking.{argument_at, asked_by};
ghost use Rattle.wanted_bits.specs.Made.{IsMadeNarrowed};
ghost use Rattle.wanted_bits.specs.MostRemoved.{RemovesMost};
ghost use Rattle.wanted_bits.specs.NarrowedPaths.{KeepsPaths};
ghost use Rattle.wanted_bits.specs.RunsAgree.{RunsAgree};
ghost use Rattle.wanted_bits.specs.Wanted.{all_asked};
ghost use Rattle.wanted_bits.specs.Narrowed.{IsNarrowed, all_handed, handed, IsOnlyNarrowed, NarrowedStaysSplit, goes, is_itself};

use crate::around::{Around, Widths};
use crate::behind::behind;
use crate::picking::Shift;
use crate::preparing::Prepared;
use crate::wanting::narrowed_past;
use flow_graph::{Graph, Node};
use mir_base::{Args, Memory, Operand, Rhs, divides};
use std::alloc::Global;

/// The narrowed graph. Of each variable so many of its lowest bits are wanted before each node, the least numbers: all
/// 64 of what is printed, tested, passed and returned and of divisors that may be 0, and of other operands those that
/// change the wanted bits of the result. By them an assignment of which no bit is wanted, and which does not divide,
/// becomes a Skip; an operator of which one operand is a constant that changes no wanted bit of the other gives way to
/// that other; and a shift to the right of a variable that was shifted to the left as far gives way to what was shifted,
/// where the wanted bits were not shifted out. Of shifts to the left only those count whose constant is written as a
/// number from 0 to 63. What is then assigned to itself becomes a Skip too. No other node changes.
///
/// The graph does the same and evaluates no more operators. It fails only with `Memory`.
pub fn narrow(alloc: Global, graph: &Graph) -> Result<Graph, Memory>
    ensures narrowed { IfOk result (IsNarrowed graph.now) }

    // there is no other such graph
    ensures only { IfOk result (IsOnlyNarrowed graph.now) }

    // no removal of assignments that keeps what is wanted, whatever is taken for it, takes one that stays here
    ensures most { IfOk result (RemovesMost graph.now) }

    // it has the name of the graph, does the same, evaluates no more operators, and makes no other calls
    ensures keeps { IfOk result (GraphKeeps graph.now) }

    // it has the same paths from Start to a Return, and on none of them are more operators evaluated
    ensures paths { IfOk result (KeepsPaths graph.now) }

    // along each run each variable agrees with what it was in the bits that are wanted
    ensures agrees { IfOk result (RunsAgree graph.now) }

    // each dividing assignment stays as it is
    ensures divides { IfOk result (GraphDividesUnchanged graph.now) }

    // a split graph stays split
    ensures split { IfOk result (NarrowedStaysSplit graph.now) }
{
    let _nodes = graph.nodes();
    let whole = Widths::zeros(alloc, 0)?;
    let narrowed = narrow_whole(alloc, graph, &whole)?;
    Ok(narrowed)
}

/// The same, where this has no numbers.
fn narrow_whole(alloc: Global, graph: &Graph, whole: &Widths) -> Result<Graph, Memory>
    requires { whole.now ≡ [] }
    ensures { IfOk result (IsMadeNarrowed all_asked graph.now) }
{
    let around = Around {
        globals: &[],
        arguments: &[],
        back: whole,
    };
    let narrowed = narrow_in(alloc, graph, &around)?;
    Ok(narrowed)
}

/// The narrowed graph of a unit, where so many bits are asked for around it: of what a call hands over as many are
/// wanted as are asked for where that unit is entered, and of what the unit hands back as many as are asked for behind
/// it. Beside what `narrow` says, an argument or a result of which no bit is asked for becomes 0.
///
/// It fails only with `Memory`.
pub fn narrow_in(alloc: Global, graph: &Graph, around: &Around<'_>) -> Result<Graph, Memory>
    ensures { IfOk result (IsMadeNarrowed (asked_by graph.now.shared around.now) graph.now) }
{
    let _nodes = graph.nodes();
    let nodes = found_nodes(alloc, graph, around)?;
    let narrowed = graph.with_nodes(alloc, nodes)?;
    Ok(narrowed)
}

/// What the nodes become.
fn found_nodes(alloc: Global, graph: &Graph, around: &Around<'_>) -> Result<Vec<Node>, Memory>
    ensures { IfOk result (λ nodes. AreFoundNodes (asked_by graph.now.shared around.now)
        graph.now nodes.items) }
{
    let prepared = Prepared::of(alloc, graph)?;
    let behind = behind(alloc, graph, around, &prepared)?;
    let backs = prepared.backs.as_slice();
    let nodes = listed_nodes(alloc, graph, around, backs, behind.as_slice())?;
    Ok(nodes)
}

/// The same by what each right side shifts back, and by how many bits are wanted of what each node assigns.
fn listed_nodes(
    alloc: Global,
    graph: &Graph,
    around: &Around<'_>,
    backs: &[Option<Shift>],
    behind: &[u8],
) -> Result<Vec<Node>, Memory>
    requires backs { length backs.now ≡ length graph.now.nodes }
    requires behind { length behind.now ≡ length graph.now.nodes }
    requires few { HasFew behind.now }
    ensures { IfOk result (λ nodes. AreListed graph.now (asked_by graph.now.shared around.now)
        backs.now behind.now nodes.items) }
{
    let shared = graph.shared();
    let mut nodes = Vec::with_capacity(alloc, graph.len())?;
    for n in 0..graph.len() {
        let node = narrowed_by(alloc, graph.node(n), around, shared, backs[n], behind[n])?;
        nodes.push(node)?;
    }
    Ok(nodes)
}

/// What a node becomes, whose right side shifts this back, and of whose variable so many bits are wanted behind it.
/// There are so many globals.
fn narrowed_by(
    alloc: Global,
    node: &Node,
    around: &Around<'_>,
    shared: usize,
    back: Option<Shift>,
    k: u8,
) -> Result<Node, Memory>
    requires { k ≤ 64 }
    ensures { IfOk result (λ made.
        made ≡ narrowed_by (asked_by shared around.now) back k node.now) }
{
    match node {
        Node::Assign(x, rhs, next) => Ok(narrowed_assign(*x, *rhs, *next, back, k)),
        Node::Call(into, unit, args, next) => {
            let operands = handed_over(alloc, around, *unit, args.items())?;
            let args = Args::of(alloc, operands.as_slice())?;
            Ok(Node::Call(*into, *unit, args, *next))
        }
        Node::Return(a) => Ok(Node::Return(handed(around.back.get(shared), *a))),
        _ => {
            let made = node.clone()?;
            Ok(made)
        }
    }
}

/// The arguments that a call of the unit hands over in the place of these.
fn handed_over(
    alloc: Global,
    around: &Around<'_>,
    unit: usize,
    operands: &[Operand],
) -> Result<Vec<Operand>, Memory>
    ensures { IfOk result (λ made.
        made.items ≡ all_handed (argument_at around.now unit) 0 operands.now) }
{
    let mut made = Vec::with_capacity(alloc, operands.len())?;
    for i in 0..operands.len() {
        made.push(handed(around.argument(unit, i), operands[i]))?;
    }
    Ok(made)
}

/// An operand that is handed over, of which so many bits are asked for: 0 where none is.
fn handed(k: u8, a: Operand) -> Operand
    ensures { result ≡ handed k a }
{
    if k == 0 { Operand::Const(0) } else { a }
}

/// What an assignment becomes.
fn narrowed_assign(x: usize, rhs: Rhs, next: usize, back: Option<Shift>, k: u8) -> Node
    requires { k ≤ 64 }
    ensures { result ≡ narrowed_by all_asked back k (Assign x rhs next) }
{
    let narrowed = narrowed_past(back, rhs, k);
    if goes(x, rhs, narrowed, k) {
        Node::Skip(next)
    } else {
        Node::Assign(x, narrowed, next)
    }
}

/// Whether an assignment goes: where no bit of it is wanted and it does not divide, or where it becomes one of the
/// variable itself.
fn goes(x: usize, rhs: Rhs, narrowed: Rhs, k: u8) -> bool
    ensures { result ≡ goes x rhs narrowed k }
{
    let unwanted = k == 0 && !divides(&rhs);
    unwanted || is_itself(x, narrowed)
}

/// Whether a right side is this variable.
fn is_itself(x: usize, rhs: Rhs) -> bool
    ensures { result ≡ is_itself x rhs }
{
    match rhs {
        Rhs::Plain(Operand::Var(y)) => y == x,
        _ => false,
    }
}
