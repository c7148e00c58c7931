// The nodes in which extensions that change nothing are copies.
ghost use Rattle.std.specs.Prelude.{◌≡◌, ◌<◌, length, IfOk, Some};
ghost use Rattle.std.specs.Option.{option_map};
ghost use Rattle.bounds.specs.BoundRules.{bound_rules};
ghost use Rattle.bounds.specs.Edges.{fact_at};
ghost use Rattle.bounds.specs.Facts.{BelowFact};
ghost use Rattle.cond_flow.specs.KnownBefore.{AreStatesOf};
ghost use Rattle.held_assign.specs.Rows.{IsLookup, held_at};
ghost use Rattle.extend_flow.specs.ByRows.{AreExtendedBy, IsExtendedRhs};
ghost use Rattle.extend_flow.specs.Extended.{IsExtendedAt, extended_by};
ghost use Rattle.extend_flow.specs.Extensions.{extension_of, extension_on};

use crate::shifts::{Extension, extension_held, keeps_all};
use bounds::{End, Fact};
use cond_flow::LeastStates;
use flow_graph::{Graph, Node};
use held_assign::HeldAssigns;
use mir_base::{Memory, Op, Operand, Rhs};
use std::alloc::Global;

/// What the nodes of a graph become, by the shifts that hold. Where the graph has none, the bounds are not looked for.
pub(crate) fn nodes_by_held(
    alloc: Global,
    graph: &Graph,
    held: &HeldAssigns,
) -> Result<Vec<Node>, Memory>
    requires { IsLookup (length graph.now.vars) (length graph.now.nodes) held.now }
    ensures { IfOk result (λ nodes. AreExtendedBy graph.now held.now nodes.items) }
{
    if held.table.len() == 0 {
        let same = copied(alloc, graph.nodes())?;
        return Ok(same);
    }
    let states = LeastStates::<Fact>::of(alloc, graph)?;
    let nodes = nodes_by_states(alloc, graph, held, &states)?;
    Ok(nodes)
}

/// What the nodes of a graph become, by the shifts that hold and the least bounds.
fn nodes_by_states(
    alloc: Global,
    graph: &Graph,
    held: &HeldAssigns,
    states: &LeastStates<Fact>,
) -> Result<Vec<Node>, Memory>
    requires lookup { IsLookup (length graph.now.vars) (length graph.now.nodes) held.now }
    requires states { AreStatesOf BelowFact bound_rules graph.now states.now }
    ensures { IfOk result (λ nodes. AreExtendedBy graph.now held.now nodes.items) }
{
    let old = graph.nodes();
    let mut nodes = Vec::with_capacity(alloc, old.len())?;
    for n in 0..old.len() {
        let node = extended_node(alloc, graph, held, states, n)?;
        nodes.push(node)?;
    }
    Ok(nodes)
}

/// A copy of the nodes.
fn copied(alloc: Global, nodes: &[Node]) -> Result<Vec<Node>, Memory>
    ensures { IfOk result (λ copied. copied.items ≡ nodes.now) }
{
    let mut copied = Vec::with_capacity(alloc, nodes.len())?;
    for node in nodes {
        copied.push(node.clone()?)?;
    }
    Ok(copied)
}

/// What node n becomes. It fails only with `Memory`.
fn extended_node(
    alloc: Global,
    graph: &Graph,
    held: &HeldAssigns,
    states: &LeastStates<Fact>,
    n: usize,
) -> Result<Node, Memory>
    requires lookup { IsLookup (length graph.now.vars) (length graph.now.nodes) held.now }
    requires states { AreStatesOf BelowFact bound_rules graph.now states.now }
    requires there { n < length graph.now.nodes }
    ensures { IfOk result (λ made. IsExtendedAt graph.now (held_at held.now n) n (Some made)) }
{
    let node = graph.node(n);
    match node {
        Node::Assign(x, rhs, next) => {
            let made = extended_rhs(alloc, graph, held, states, n, *rhs)?;
            Ok(Node::Assign(*x, made, *next))
        }
        _ => {
            let same = node.clone()?;
            Ok(same)
        }
    }
}

/// What a right side becomes at node n. It fails only with `Memory`.
fn extended_rhs(
    alloc: Global,
    graph: &Graph,
    held: &HeldAssigns,
    states: &LeastStates<Fact>,
    n: usize,
    rhs: Rhs,
) -> Result<Rhs, Memory>
    requires lookup { IsLookup (length graph.now.vars) (length graph.now.nodes) held.now }
    requires states { AreStatesOf BelowFact bound_rules graph.now states.now }
    requires there { n < length graph.now.nodes }
    ensures { IfOk result (IsExtendedRhs graph.now (held_at held.now n) n rhs) }
{
    match extension_of(held, n, rhs) {
        Some(extension) => {
            let known = states.before(alloc, graph, n)?;
            let made = extended_by(&known, rhs, extension);
            Ok(made)
        }
        None => Ok(rhs),
    }
}

/// What a right side becomes that is this extension, by what is known before its node.
fn extended_by(known: &Option<Vec<Fact>>, rhs: Rhs, extension: Extension) -> Rhs
    ensures { result
        ≡ extended_by (option_map (λ list. list.items) known.now) rhs extension }
{
    match known {
        Some(facts) => {
            if keeps_all(extension, fact_at(facts.as_slice(), extension.source)) {
                Rhs::Plain(Operand::Var(extension.source))
            } else {
                rhs
            }
        }
        None => rhs,
    }
}

/// The fact of a variable.
fn fact_at(facts: &[Fact], x: usize) -> Fact
    ensures { result ≡ fact_at facts.now x }
{
    if x < facts.len() {
        facts[x]
    } else {
        Fact::Between(End::Least, End::Greatest)
    }
}

// ---- the extensions, by the shifts that hold

/// The extension that a right side is at node n, if it is one.
fn extension_of(held: &HeldAssigns, n: usize, rhs: Rhs) -> Option<Extension>
    requires lookup { IsLookup (length held.now.targets) (length held.now.held) held.now }
    requires there { n < length held.now.held }
    ensures { result ≡ extension_of (held_at held.now n) rhs }
{
    match rhs {
        Rhs::Plain(_) => None,
        Rhs::Unary(_, _) => None,
        Rhs::Binary(op, a, b) => extension_on(held, n, op, a, b),
    }
}

/// The extension that an operator on two operands is.
fn extension_on(held: &HeldAssigns, n: usize, op: Op, a: Operand, b: Operand) -> Option<Extension>
    requires lookup { IsLookup (length held.now.targets) (length held.now.held) held.now }
    requires there { n < length held.now.held }
    ensures { result ≡ extension_on (held_at held.now n) op a b }
{
    match a {
        Operand::Const(_) => None,
        Operand::Var(t) => match b {
            Operand::Var(_) => None,
            Operand::Const(c) => extension_held(op, c, held.rhs_at(n, t)),
        },
    }
}
