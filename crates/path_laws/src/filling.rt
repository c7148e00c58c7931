// The rows of nodes, from what comes out of the blocks.
ghost use Rattle.std.specs.Prelude.{◌≡◌, ◌+◌, ◌<◌, length, slice_get, IfOk, Some, true};
ghost use Rattle.path_laws.specs.Paths.{HaveShape};
ghost use Rattle.path_laws.specs.Problem.{AreAllBetween, AreInitial, AreLed, GrowTo, HandsAlong, HandsOn, HaveAnswers, HaveBlockShape, HaveBlocks, HaveFirsts, IsProblem, TakesIn, orders};

use crate::bits::Bits;
use crate::passing::{barred_at, join_seeds, node_at};
use crate::problems::Problem;
use crate::seeds::is_end;
use bit_rows::Rows;
use fix_solve::Work;
use flow_graph::Edge;
use mir_base::Memory;
use std::alloc::Global;

/// The initial rows become the answers at all nodes. Bits are joined to each row in place: at the first node of a block
/// what the edges between blocks bring, and at each other node what the one before it hands on.
pub(crate) fn fill_all(problem: &Problem<'_>, edges: &[Edge], work: &Work<Bits>, rows: &mut Rows)
    requires problem { IsProblem problem.now }
    requires edges { AreAllBetween problem.now edges.now }
    requires shape { HaveBlockShape problem.now work.now }
    requires leads { AreLed problem.now edges.now work.now }
    requires rows { AreInitial problem.now rows.old }
    ensures { HaveAnswers problem.now rows.new }
{
    come(problem, edges, work, rows);
    for block in 0..problem.blocks.len() {
        fill(problem, block, rows);
    }
}

/// The rows with which the answers begin: against the edges the seeds, and along them no bit.
pub(crate) fn initial_rows(alloc: Global, problem: &Problem<'_>) -> Result<Rows, Memory>
    requires { IsProblem problem.now }
    ensures { IfOk result (AreInitial problem.now) }
{
    if !problem.against {
        Rows::new(alloc, problem.graph.len(), problem.bits)
    } else if !problem.every {
        problem.born.copied(alloc)
    } else {
        seeds(alloc, problem)
    }
}

/// The seeds of all nodes for every path against the edges: what is stopped and not born, and at a Return all that is
/// not born.
fn seeds(alloc: Global, problem: &Problem<'_>) -> Result<Rows, Memory>
    requires problem { IsProblem problem.now }
    requires against { problem.now.against ≡ true }
    requires every { problem.now.every ≡ true }
    ensures { IfOk result (AreInitial problem.now) }
{
    let mut rows = problem.stop.without(alloc, problem.born)?;
    for node in 0..problem.graph.len() {
        if is_end(problem.graph, problem.against, node) {
            join_seeds(problem, &mut rows, node, node);
        }
    }
    Ok(rows)
}

/// Joins what comes over the edges between blocks, so that the first node of each block has its answer.
fn come(problem: &Problem<'_>, edges: &[Edge], work: &Work<Bits>, rows: &mut Rows)
    requires problem { IsProblem problem.now }
    requires edges { AreAllBetween problem.now edges.now }
    requires shape { HaveBlockShape problem.now work.now }
    requires leads { AreLed problem.now edges.now work.now }
    requires rows { AreInitial problem.now rows.old }
    ensures rows { GrowTo problem.now rows.new }
    ensures firsts { HaveFirsts problem.now rows.new }
{
    for edge in edges {
        take_in(problem, edge, work, rows);
    }
}

/// Joins what comes over one edge: against the edges only what the first node of its target does not bar.
fn take_in(problem: &Problem<'_>, edge: &Edge, work: &Work<Bits>, rows: &mut Rows)
    requires problem { IsProblem problem.now }
    requires source { edge.now.source < length problem.now.blocks.now.lists }
    requires target { edge.now.target < length problem.now.blocks.now.lists }
    requires shape { HaveBlockShape problem.now work.now }
    requires rows { HaveShape problem.now.graph.now problem.now.bits rows.old }
    ensures { TakesIn problem.now edge.now work.now rows.old rows.new }
{
    let node = first_of(problem, edge.target);
    let value = work.value(edge.source).row();
    if problem.against {
        rows.or_minus_from(node, &value, &barred_at(problem, node));
    } else {
        rows.or_from(node, &value);
    }
}

/// The first node of a block in the order of the flow.
fn first_of(problem: &Problem<'_>, block: usize) -> usize
    requires problem { IsProblem problem.now }
    requires block { block < length problem.now.blocks.now.lists }
    ensures first { slice_get (orders problem.now block) 0 ≡ Some result }
    ensures node { result < length problem.now.graph.now.nodes }
{
    node_at(problem.blocks.nodes(block), problem.against, 0)
}

/// The answers at the other nodes of one block, in the order of the flow.
fn fill(problem: &Problem<'_>, block: usize, rows: &mut Rows)
    requires problem { IsProblem problem.now }
    requires block { block < length problem.now.blocks.now.lists }
    requires rows { GrowTo problem.now rows.old }
    requires firsts { HaveFirsts problem.now rows.old }
    requires blocks { HaveBlocks problem.now block rows.old }
    ensures rows { GrowTo problem.now rows.new }
    ensures firsts { HaveFirsts problem.now rows.new }
    ensures blocks { HaveBlocks problem.now (block + 1) rows.new }
{
    let nodes = problem.blocks.nodes(block);
    for place in 1..nodes.len() {
        let before = node_at(nodes, problem.against, place - 1);
        let node = node_at(nodes, problem.against, place);
        hand_on(problem, before, node, rows);
    }
}

/// Joins to the row of a node what the one before it in its block hands on.
fn hand_on(problem: &Problem<'_>, before: usize, node: usize, rows: &mut Rows)
    requires problem { IsProblem problem.now }
    requires before { before < length problem.now.graph.now.nodes }
    requires node { node < length problem.now.graph.now.nodes }
    requires rows { HaveShape problem.now.graph.now problem.now.bits rows.old }
    ensures { HandsOn problem.now before node rows.old rows.new }
{
    if problem.against {
        rows.or_minus_within(node, before, &barred_at(problem, node));
    } else {
        hand_along(problem, before, node, rows);
    }
}

/// Joins to the row of a node what the node `before` it in its block hands on along the edges: what came to `before`
/// and is not barred there, and the seeds of `before`. For a question on every path one pass over the words does both,
/// unless paths end at `before`.
fn hand_along(problem: &Problem<'_>, before: usize, node: usize, rows: &mut Rows)
    requires problem { IsProblem problem.now }
    requires before { before < length problem.now.graph.now.nodes }
    requires node { node < length problem.now.graph.now.nodes }
    requires rows { HaveShape problem.now.graph.now problem.now.bits rows.old }
    ensures { HandsAlong problem.now before node rows.old rows.new }
{
    if problem.every && !is_end(problem.graph, problem.against, before) {
        let stop = problem.stop.row(before);
        rows.or_passed_within(node, before, &stop, &problem.born.row(before));
    } else {
        rows.or_minus_within(node, before, &barred_at(problem, before));
        join_seeds(problem, rows, node, before);
    }
}
