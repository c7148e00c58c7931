// Which dead divisions divide by what is not 0.
ghost use Rattle.std.specs.Prelude.{◌≡◌, ◌↔◌, ◌<◌, true, length, IfOk};
ghost use Rattle.std.specs.Option.{option_map};
ghost use Rattle.cond_flow.specs.KnownBefore.{AreStatesOf};
ghost use Rattle.bounds.specs.BoundRules.{bound_rules};
ghost use Rattle.bounds.specs.Edges.{fact_of};
ghost use Rattle.bounds.specs.Facts.{BelowFact};
ghost use Rattle.zero_flow.specs.ZeroFacts.{BelowZeroFact};
ghost use Rattle.zero_flow.specs.ZeroRules.{zero_rules};
ghost use Rattle.unread_div.specs.Flags.{AreSafety, TellDeadDivisions, TellUnread, divisor_in, divisor_of};
ghost use Rattle.unread_div.specs.Unread.{IsDeadDivision, IsNeverZero, IsOtherByBounds, IsOtherByZeros, IsUnreadAt, bounds_have_zero, may_be_nought_before};

use bounds::{End, Fact, may_hold};
use cond_flow::LeastStates;
use flow_graph::{Graph, Node};
use mir_base::{Memory, Operand, RelOp, Rhs};
use std::alloc::Global;
use zero_flow::{ZeroFact, may_be_nought};

/// The least states that say of divisors that they are not 0.
#[derive(Drop)]
struct Safety {
    /// Which variables are 0.
    zeros: LeastStates<ZeroFact>,
    /// The bounds of the variables.
    bounds: LeastStates<Fact>,
}

/// Of the dead divisions, those whose divisor is not 0 by the least states. It fails only with `Memory`.
pub(crate) fn safe_divisions(
    alloc: Global,
    graph: &Graph,
    dead: &[bool],
) -> Result<Vec<bool>, Memory>
    requires { TellDeadDivisions graph.now dead.now }
    ensures { IfOk result (λ flags. TellUnread graph.now flags.items) }
{
    let safety = safety_of(alloc, graph)?;
    let flags = safe_by(alloc, graph, dead, &safety)?;
    Ok(flags)
}

/// The least states of a graph.
fn safety_of(alloc: Global, graph: &Graph) -> Result<Safety, Memory>
    ensures { IfOk result (AreSafety graph.now) }
{
    let zeros = LeastStates::of(alloc, graph)?;
    let bounds = LeastStates::of(alloc, graph)?;
    Ok(Safety { zeros, bounds })
}

/// The same, by the least states.
fn safe_by(
    alloc: Global,
    graph: &Graph,
    dead: &[bool],
    safety: &Safety,
) -> Result<Vec<bool>, Memory>
    requires dead { TellDeadDivisions graph.now dead.now }
    requires safety { AreSafety graph.now safety.now }
    ensures { IfOk result (λ flags. TellUnread graph.now flags.items) }
{
    let mut flags = Vec::with_capacity(alloc, dead.len())?;
    for n in 0..dead.len() {
        flags.push(is_unread(alloc, graph, safety, n, dead[n])?)?;
    }
    Ok(flags)
}

/// Whether a node is a division that nothing reads and whose divisor is not 0, by whether it is a dead division.
fn is_unread(
    alloc: Global,
    graph: &Graph,
    safety: &Safety,
    n: usize,
    dead: bool,
) -> Result<bool, Memory>
    requires safety { AreSafety graph.now safety.now }
    requires there { n < length graph.now.nodes }
    requires dead { (dead ≡ true) ↔ IsDeadDivision graph.now n }
    ensures { IfOk result (λ unread. (unread ≡ true) ↔ IsUnreadAt graph.now n) }
{
    if dead {
        match divisor_in(graph.node(n)) {
            None => Ok(false),
            Some(b) => {
                let never = is_never_zero(alloc, graph, safety, n, b)?;
                Ok(never)
            }
        }
    } else {
        Ok(false)
    }
}

/// The second operand of what a node assigns, where it is binary.
fn divisor_in(node: &Node) -> Option<Operand>
    ensures { result ≡ divisor_in node.now }
{
    match node {
        Node::Assign(_, rhs, _) => divisor_of(rhs),
        _ => None,
    }
}

/// The second operand of a right side, where it is binary.
fn divisor_of(rhs: &Rhs) -> Option<Operand>
    ensures { result ≡ divisor_of rhs.now }
{
    match rhs {
        Rhs::Plain(_) => None,
        Rhs::Unary(_, _) => None,
        Rhs::Binary(_, _, b) => Some(*b),
    }
}

/// Whether an operand is not 0 before a node, by the least states.
fn is_never_zero(
    alloc: Global,
    graph: &Graph,
    safety: &Safety,
    n: usize,
    b: Operand,
) -> Result<bool, Memory>
    requires safety { AreSafety graph.now safety.now }
    requires there { n < length graph.now.nodes }
    ensures { IfOk result (λ never. (never ≡ true) ↔ IsNeverZero graph.now n b) }
{
    let other = is_other_by_zeros(alloc, graph, &safety.zeros, n, b)?;
    if other {
        Ok(true)
    } else {
        let other = is_other_by_bounds(alloc, graph, &safety.bounds, n, b)?;
        Ok(other)
    }
}

/// The same by which variables are 0.
fn is_other_by_zeros(
    alloc: Global,
    graph: &Graph,
    states: &LeastStates<ZeroFact>,
    n: usize,
    b: Operand,
) -> Result<bool, Memory>
    requires states { AreStatesOf BelowZeroFact zero_rules graph.now states.now }
    requires there { n < length graph.now.nodes }
    ensures { IfOk result (λ other. (other ≡ true) ↔ IsOtherByZeros graph.now n b) }
{
    let known = states.before(alloc, graph, n)?;
    Ok(!may_be_nought_before(&known, b))
}

/// Whether an operand may be 0 by which variables are, where a run comes to the node at all.
fn may_be_nought_before(known: &Option<Vec<ZeroFact>>, b: Operand) -> bool
    ensures { result ≡ may_be_nought_before (option_map (λ list. list.items) known.now) b }
{
    match known {
        None => false,
        Some(list) => may_be_nought(list.as_slice(), b),
    }
}

/// Whether an operand is not 0 before a node, by the bounds of the variables.
fn is_other_by_bounds(
    alloc: Global,
    graph: &Graph,
    states: &LeastStates<Fact>,
    n: usize,
    b: Operand,
) -> Result<bool, Memory>
    requires states { AreStatesOf BelowFact bound_rules graph.now states.now }
    requires there { n < length graph.now.nodes }
    ensures { IfOk result (λ other. (other ≡ true) ↔ IsOtherByBounds graph.now n b) }
{
    let known = states.before(alloc, graph, n)?;
    Ok(!bounds_have_zero(&known, b))
}

/// Whether an operand may be 0 by the bounds of the variables, where a run comes to the node at all.
fn bounds_have_zero(known: &Option<Vec<Fact>>, b: Operand) -> bool
    ensures { result ≡ bounds_have_zero (option_map (λ list. list.items) known.now) b }
{
    match known {
        None => false,
        Some(list) => may_hold(RelOp::Eq, fact_of(list.as_slice(), b), Fact::Fixed(0)),
    }
}

/// The bounds of an operand.
fn fact_of(facts: &[Fact], b: Operand) -> Fact
    ensures { result ≡ fact_of facts.now b }
{
    match b {
        Operand::Var(x) => {
            if x < facts.len() {
                facts[x]
            } else {
                Fact::Between(End::Least, End::Greatest)
            }
        }
        Operand::Const(c) => Fact::Fixed(c),
    }
}
