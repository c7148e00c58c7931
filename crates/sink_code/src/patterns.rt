// The patterns of assignments: a variable and a right side that does not divide.
ghost use Rattle.std.specs.Prelude.{◌≡◌, ◌<◌, ◌||◌, IsPermutation, flat_map, length, nat_eq, nat_lt, IfOk, Some};
ghost use Rattle.mir_base.specs.Frames.{shared_vars};
ghost use Rattle.mir_base.specs.Shapes.{AllDiffer, operand_vars, rhs_vars, test_vars};
ghost use Rattle.flow_graph.specs.Edges.{edges_of};
ghost use Rattle.flow_graph.specs.Graphs.{SuccsBelow, is_start, node_reads};
ghost use Rattle.std.specs.List.{list_any};
ghost use Rattle.std.specs.List.Sorted.{IsStableByKey};
ghost use Rattle.std.specs.Ordering.{nat_cmp};
ghost use Rattle.flow_graph.specs.Numbering.{is_in};
ghost use Rattle.graph_edit.specs.Accesses.{blocks_pattern};
ghost use Rattle.sink_code.specs.Moving.{AreMoving, MovesFrom, MovesOn};
ghost use Rattle.sink_code.specs.PatternTables.{AreOrdered, assigns_in, sinkable_pattern, pattern_of, touches_pattern};

use crate::skips::stop_after;
use flow_graph::{Edges, Graph, Node};
use key_table::KeyTable;
use mir_base::{Memory, Operand, Rhs, Test, divides};
use std::alloc::Global;

/// A pattern of assignments. Its occurrences are the nodes that assign this right side, which does not divide, to this
/// variable.
#[derive(Clone, Copy, Debug, PartialEq, Eq, Hash)]
pub struct Pattern {
    /// The variable that is assigned, by number.
    pub var: usize,
    /// The right side.
    pub rhs: Rhs,
}

/// A table of distinct patterns, numbered from 0. Contracts see it as the list of them.
pub(crate) type Patterns = KeyTable<Pattern>;

/// The patterns that can still move: those with an occurrence from which Skips lead on to no node that blocks them.
/// They are in order of their variables, and those of one variable in order of the first such occurrence. `edges` are
/// those of the graph. It fails only with `Memory`.
pub(crate) fn moving_patterns(
    alloc: Global,
    graph: &Graph,
    edges: &Edges,
) -> Result<Patterns, Memory>
    requires { edges.now ≡ edges_of graph.now.nodes }
    ensures { IfOk result (AreMoving graph.now) }
{
    let mut found = KeyTable::new(alloc);
    let nodes = graph.nodes();
    for node in nodes {
        if let Some(pattern) = moving_at(graph, edges, node) {
            found.number(pattern)?;
        }
    }
    let table = in_order(alloc, &found)?;
    Ok(table)
}

/// The same patterns in order of their variables, where those of one variable keep their order. It fails only with
/// `Memory`.
fn in_order(alloc: Global, found: &Patterns) -> Result<Patterns, Memory>
    ensures ordered { IfOk result AreOrdered }
    ensures same { IfOk result (IsPermutation found.now) }
    ensures stable { IfOk result (IsStableByKey (λ pattern. pattern.var) nat_cmp found.now) }
{
    let mut patterns = listed(alloc, found)?;
    patterns.sort_by_key(|pattern| pattern.var)?;
    let table = KeyTable::of(alloc, patterns)?;
    Ok(table)
}

/// The list of the patterns of a table.
fn listed(alloc: Global, table: &Patterns) -> Result<Vec<Pattern>, Memory>
    ensures all { IfOk result (λ patterns. patterns.items ≡ table.now) }
    ensures differ { AllDiffer table.now }
{
    let mut patterns = Vec::new(alloc);
    for number in 0..table.len() {
        patterns.push(*table.get(number))?;
    }
    Ok(patterns)
}

/// The pattern that occurs at a node, where Skips do not lead on from there to a node that blocks it.
fn moving_at(graph: &Graph, edges: &Edges, node: &Node) -> Option<Pattern>
    requires edges { edges.now ≡ edges_of graph.now.nodes }
    requires below { SuccsBelow (length graph.now.nodes) node.now }
    ensures { MovesFrom graph.now node.now result }
{
    match node {
        Node::Assign(_, _, next) => moving_on(graph, edges, node, *next),
        _ => None,
    }
}

/// The pattern that occurs at a node, where Skips do not lead on from its successor to a node that blocks it.
fn moving_on(graph: &Graph, edges: &Edges, node: &Node, next: usize) -> Option<Pattern>
    requires edges { edges.now ≡ edges_of graph.now.nodes }
    requires next { next < length graph.now.nodes }
    ensures { MovesOn graph.now node.now next result }
{
    let pattern = pattern_at(node)?;
    let nodes = graph.nodes();
    let stop = stop_after(nodes, edges, next);
    if blocks(graph, &nodes[stop], &pattern) {
        None
    } else {
        Some(pattern)
    }
}

/// The pattern that occurs at a node.
pub(crate) fn pattern_at(node: &Node) -> Option<Pattern>
    ensures { result ≡ pattern_of node.now }
{
    match node {
        Node::Assign(x, rhs, _) => sinkable_pattern(*x, *rhs),
        _ => None,
    }
}

/// The pattern of an assignment, where its right side does not divide.
fn sinkable_pattern(var: usize, rhs: Rhs) -> Option<Pattern>
    ensures { result ≡ sinkable_pattern var rhs }
{
    if divides(&rhs) {
        None
    } else {
        Some(Pattern { var, rhs })
    }
}

/// Whether a node of the graph blocks a pattern: it is Start, reads the variable, or assigns it or a variable of the
/// right side.
fn blocks(graph: &Graph, node: &Node, pattern: &Pattern) -> bool
    ensures { result ≡
        blocks_pattern graph.now pattern.now.var pattern.now.rhs (Some node.now) }
{
    let starts = is_start(node);
    let reads = node_reads(graph, node, pattern.var);
    let touches = node_touches(graph, node, pattern);
    let accesses = either(reads, touches);
    let blocked = either(starts, accesses);
    blocked
}

/// Whether one of the two is so.
fn either(a: bool, b: bool) -> bool
    ensures { result ≡ (a || b) }
{
    a || b
}

/// Whether a node is Start.
pub(crate) fn is_start(node: &Node) -> bool
    ensures { result ≡ is_start node.now }
{
    match node {
        Node::Start(_) => true,
        Node::Skip(_) => false,
        Node::Assign(_, _, _) => false,
        Node::Print(_, _) => false,
        Node::Guard(_, _, _) => false,
        Node::Call(_, _, _, _) => false,
        Node::Test(_, _, _) => false,
        Node::Return(_) => false,
    }
}

/// Whether a node of the graph reads x.
#[tactic(auto, using(graph_edit::specs::VarLaws::is_in_append))]
fn node_reads(graph: &Graph, node: &Node, x: usize) -> bool
    ensures { result ≡ is_in x (node_reads graph.now node.now) }
{
    match node {
        Node::Start(_) => false,
        Node::Skip(_) => false,
        Node::Assign(_, rhs, _) => rhs_reads(rhs, x),
        Node::Print(a, _) => is_var(*a, x),
        Node::Guard(test, _, _) => test_reads(test, x),
        Node::Call(_, _, args, _) => is_global(graph, x) || one_is(args.items(), x),
        Node::Test(test, _, _) => test_reads(test, x),
        Node::Return(a) => is_global(graph, x) || is_var(*a, x),
    }
}

/// Whether x is a global of the graph.
#[tactic(auto, using(graph_edit::specs::VarLaws::shared_is_in))]
fn is_global(graph: &Graph, x: usize) -> bool
    ensures { result ≡ is_in x (shared_vars graph.now.shared) }
{
    x < graph.shared()
}

/// Whether a node of the graph assigns a variable of the pattern.
#[tactic(auto, using(graph_edit::specs::VarLaws::assigns_none))]
fn node_touches(graph: &Graph, node: &Node, pattern: &Pattern) -> bool
    ensures { result ≡ touches_pattern graph.now node.now pattern.now }
{
    match node {
        Node::Start(_) => false,
        Node::Skip(_) => false,
        Node::Assign(y, _, _) => touches(pattern, *y),
        Node::Print(_, _) => false,
        Node::Guard(_, _, _) => false,
        Node::Call(Some(y), _, _, _) => call_touches(graph, pattern, *y),
        Node::Call(None, _, _, _) => has_global(pattern, graph.shared()),
        Node::Test(_, _, _) => false,
        Node::Return(_) => false,
    }
}

/// Whether a call whose result goes to y assigns a variable of the pattern.
fn call_touches(graph: &Graph, pattern: &Pattern, y: usize) -> bool
    ensures { result ≡ (assigns_in graph.now.shared y pattern.now.var ||
        list_any (assigns_in graph.now.shared y) (rhs_vars pattern.now.rhs)) }
{
    let global = has_global(pattern, graph.shared());
    let own = touches(pattern, y);
    let one = either(global, own);
    one
}

/// Whether the variable of the pattern or one of its right side is a global, which are the first `shared` variables.
fn has_global(pattern: &Pattern, shared: usize) -> bool
    ensures { result ≡ (nat_lt pattern.now.var shared ||
        list_any (λ z. nat_lt z shared) (rhs_vars pattern.now.rhs)) }
{
    let own = pattern.var < shared;
    let operand = rhs_has_global(&pattern.rhs, shared);
    own || operand
}

/// Whether a right side reads a global, which are the first `shared` variables.
fn rhs_has_global(rhs: &Rhs, shared: usize) -> bool
    ensures { result ≡ list_any (λ z. nat_lt z shared) (rhs_vars rhs.now) }
{
    match rhs {
        Rhs::Plain(a) => is_global_var(*a, shared),
        Rhs::Unary(_, a) => is_global_var(*a, shared),
        Rhs::Binary(_, a, b) => is_global_var(*a, shared) || is_global_var(*b, shared),
    }
}

/// Whether an operand is a global, which are the first `shared` variables.
fn is_global_var(operand: Operand, shared: usize) -> bool
    ensures { result ≡ list_any (λ z. nat_lt z shared) (operand_vars operand) }
{
    match operand {
        Operand::Var(x) => x < shared,
        Operand::Const(_) => false,
    }
}

/// Whether y is the variable of the pattern or one of its right side.
fn touches(pattern: &Pattern, y: usize) -> bool
    ensures { result ≡ (nat_eq pattern.now.var y ||
        list_any (λ z. nat_eq z y) (rhs_vars pattern.now.rhs)) }
{
    let own = pattern.var == y;
    let operand = rhs_reads(&pattern.rhs, y);
    own || operand
}

/// Whether an operand is the variable x.
fn is_var(operand: Operand, x: usize) -> bool
    ensures { result ≡ is_in x (operand_vars operand) }
{
    match operand {
        Operand::Var(y) => y == x,
        Operand::Const(_) => false,
    }
}

/// Whether one of the operands is the variable x.
fn one_is(operands: &[Operand], x: usize) -> bool
    ensures { result ≡ is_in x (flat_map operand_vars operands.now) }
{
    for operand in operands {
        if is_var(*operand, x) {
            return true;
        }
    }
    false
}

/// Whether a right side reads x.
fn rhs_reads(rhs: &Rhs, x: usize) -> bool
    ensures { result ≡ is_in x (rhs_vars rhs.now) }
{
    match rhs {
        Rhs::Plain(a) => is_var(*a, x),
        Rhs::Unary(_, a) => is_var(*a, x),
        Rhs::Binary(_, a, b) => is_var(*a, x) || is_var(*b, x),
    }
}

/// Whether a test reads x.
fn test_reads(test: &Test, x: usize) -> bool
    ensures { result ≡ is_in x (test_vars test.now) }
{
    match test {
        Test::Rel(_, a, b) => is_var(*a, x) || is_var(*b, x),
        Test::Holds(a) => is_var(*a, x),
        Test::Fails(a) => is_var(*a, x),
    }
}
