// The path calls.
ghost use Rattle.std.specs.Prelude.{◌≡◌, ◌+◌, ◌≤◌, ◌<◌, IfOk, OnErr, OnOk};
ghost use Rattle.flow_graph.specs.Blocks.{AreBlocksOf};
ghost use Rattle.flow_graph.specs.Edges.{edges_of};
ghost use Rattle.path_laws.specs.Crossings.{push_room};
ghost use Rattle.path_laws.specs.Paths.{AreBornAfter, AreBornAhead, AreBornBefore, HaveShape, width};
ghost use Rattle.path_laws.specs.Seeds.{AreFlowRows};
ghost use Rattle.path_laws.specs.Statements.{AreTold, AreFlippedFor, goes_against, is_on_every};

use crate::answers::answers;
use crate::problems::Problem;
use bit_rows::Rows;
use fix_solve::Steps;
use flow_graph::{Blocks, Edges, Graph};
use mir_base::Memory;
use std::alloc::Global;
use std::marker::Brand;
use std::sync::ledger::{Blank, Ledger};

/// Bit b at node n is true exactly where every path from Start to n has, before n, a node at which b is born and after
/// which, before n, no node stops b. So no bit is true at Start. Rows go by nodes, and have equally many bits; `edges`
/// are those of `graph`. It fails only with `Memory`.
///
/// The complement is solved: after which nodes some path does not hold the bit.
pub fn forward_all(
    alloc: Global,
    graph: &Graph,
    edges: &Edges,
    born: &Rows,
    stop: &Rows,
) -> Result<Rows, Memory>
    requires edges { edges.now ≡ edges_of graph.now.nodes }
    requires born { HaveShape graph.now (width born.now) born.now }
    requires stop { HaveShape graph.now (width born.now) stop.now }
    ensures shape { IfOk result (HaveShape graph.now (width born.now)) }
    ensures paths { IfOk result (AreBornBefore graph.now born.now stop.now) }
{
    told(alloc, graph, edges, born, stop, Statement::Before)
}

/// As `forward_all`, with the blocks of `graph` at hand. It fails only with `Memory`.
pub fn forward_all_over(
    alloc: Global,
    graph: &Graph,
    edges: &Edges,
    blocks: &Blocks,
    born: &Rows,
    stop: &Rows,
) -> Result<Rows, Memory>
    requires edges { edges.now ≡ edges_of graph.now.nodes }
    requires blocks { AreBlocksOf graph.now.nodes blocks.now }
    requires born { HaveShape graph.now (width born.now) born.now }
    requires stop { HaveShape graph.now (width born.now) stop.now }
    ensures shape { IfOk result (HaveShape graph.now (width born.now)) }
    ensures paths { IfOk result (AreBornBefore graph.now born.now stop.now) }
{
    told_over(alloc, graph, edges, blocks, born, stop, Statement::Before)
}

/// Bit b at node n is true exactly where every path from n that ends at its first node that stops b, or at a Return
/// with no such node before it, has on it a node at which b is born, the last node included. Where no path from n ends
/// so, it is true. Rows go by nodes, and have equally many bits; `edges` are those of `graph`. It fails only with
/// `Memory`.
///
/// The complement is solved: where some path ends so and meets no birth.
pub fn backward_all_over(
    alloc: Global,
    graph: &Graph,
    edges: &Edges,
    blocks: &Blocks,
    born: &Rows,
    stop: &Rows,
) -> Result<Rows, Memory>
    requires edges { edges.now ≡ edges_of graph.now.nodes }
    requires blocks { AreBlocksOf graph.now.nodes blocks.now }
    requires born { HaveShape graph.now (width born.now) born.now }
    requires stop { HaveShape graph.now (width born.now) stop.now }
    ensures shape { IfOk result (HaveShape graph.now (width born.now)) }
    ensures paths { IfOk result (AreBornAfter graph.now born.now stop.now) }
{
    told_over(alloc, graph, edges, blocks, born, stop, Statement::After)
}

/// Bit b at node n is true exactly where some path from n ends at a node at which b is born, with no node that stops b
/// before that last node. Rows go by nodes, and have equally many bits; `edges` are those of `graph`. It fails only
/// with `Memory`.
pub fn backward_some_over(
    alloc: Global,
    graph: &Graph,
    edges: &Edges,
    blocks: &Blocks,
    born: &Rows,
    stop: &Rows,
) -> Result<Rows, Memory>
    requires edges { edges.now ≡ edges_of graph.now.nodes }
    requires blocks { AreBlocksOf graph.now.nodes blocks.now }
    requires born { HaveShape graph.now (width born.now) born.now }
    requires stop { HaveShape graph.now (width born.now) stop.now }
    ensures shape { IfOk result (HaveShape graph.now (width born.now)) }
    ensures paths { IfOk result (AreBornAhead graph.now born.now stop.now) }
{
    told_over(alloc, graph, edges, blocks, born, stop, Statement::Ahead)
}

/// What a call says of the paths of each node.
#[derive(Clone, Copy, Debug, PartialEq, Eq)]
enum Statement {
    /// On every path to the node the bit is born before it.
    Before,
    /// On every path from the node the bit is born.
    After,
    /// Some path from the node ends where the bit is born.
    Ahead,
}

/// The rows that tell where a statement holds, with blocks and a counter of its own.
fn told(
    alloc: Global,
    graph: &Graph,
    edges: &Edges,
    born: &Rows,
    stop: &Rows,
    statement: Statement,
) -> Result<Rows, Memory>
    requires { AreFlowRows graph.now edges.now born.now stop.now }
    ensures shape { IfOk result (HaveShape graph.now (width born.now)) }
    ensures told { IfOk result (AreTold statement graph.now born.now stop.now) }
{
    let blocks = Blocks::of(alloc, graph, edges)?;
    told_over(alloc, graph, edges, &blocks, born, stop, statement)
}

/// The same, with the blocks at hand.
fn told_over(
    alloc: Global,
    graph: &Graph,
    edges: &Edges,
    blocks: &Blocks,
    born: &Rows,
    stop: &Rows,
    statement: Statement,
) -> Result<Rows, Memory>
    requires rows { AreFlowRows graph.now edges.now born.now stop.now }
    requires blocks { AreBlocksOf graph.now.nodes blocks.now }
    ensures shape { IfOk result (HaveShape graph.now (width born.now)) }
    ensures told { IfOk result (AreTold statement graph.now born.now stop.now) }
{
    let blank = Blank::new(1);
    let rows = told_from::<Brand>(alloc, graph, edges, blocks, born, stop, blank, statement)?;
    Ok(rows)
}

/// The same, with the counter that this blank ledger gives.
fn told_from<L: Ledger>(
    alloc: Global,
    graph: &Graph,
    edges: &Edges,
    blocks: &Blocks,
    born: &Rows,
    stop: &Rows,
    blank: Blank,
    statement: Statement,
) -> Result<Rows, Memory>
    requires rows { AreFlowRows graph.now edges.now born.now stop.now }
    requires blocks { AreBlocksOf graph.now.nodes blocks.now }
    requires name { blank.name ≡ L.name }
    requires parts { blank.parts ≡ L.parts }
    requires some { 0 < blank.parts }
    ensures shape { IfOk result (HaveShape graph.now (width born.now)) }
    ensures told { IfOk result (AreTold statement graph.now born.now stop.now) }
{
    let mut steps = Steps::<L>::new(blank);
    let steps = &mut steps;
    told_in(alloc, graph, edges, blocks, born, stop, steps, statement)
}

/// The same, with the blocks at hand, and counted. The answers of the statement's problem are flipped where it is
/// solved by its complement.
fn told_in<L: Ledger>(
    alloc: Global,
    graph: &Graph,
    edges: &Edges,
    blocks: &Blocks,
    born: &Rows,
    stop: &Rows,
    steps: &mut Steps<L>,
    statement: Statement,
) -> Result<Rows, Memory>
    requires rows { AreFlowRows graph.now edges.now born.now stop.now }
    requires blocks { AreBlocksOf graph.now.nodes blocks.now }
    ensures shape { IfOk result (HaveShape graph.now (width born.now)) }
    ensures told { IfOk result (AreTold statement graph.now born.now stop.now) }
    ensures pushes { steps.new ≤ steps.old + push_room blocks.now edges.now born.now }
    ensures counts { steps.old ≤ steps.new }
    ensures err { OnErr result (steps.new ≡ steps.old) }
{
    let problem = Problem {
        graph,
        edges,
        blocks,
        against: goes_against(statement),
        every: is_on_every(statement),
        bits: born.bits(),
        born,
        stop,
    };
    let mut rows = answers(alloc, &problem, steps)?;
    flip_for(&mut rows, statement);
    Ok(rows)
}

/// Whether the problem of a statement goes against the edges.
fn goes_against(statement: Statement) -> bool
    ensures { result ≡ goes_against statement }
{
    match statement {
        Statement::Before => false,
        Statement::After | Statement::Ahead => true,
    }
}

/// Whether it is one of every path.
fn is_on_every(statement: Statement) -> bool
    ensures { result ≡ is_on_every statement }
{
    match statement {
        Statement::Before | Statement::After => true,
        Statement::Ahead => false,
    }
}

/// The answers of a problem become those of its statement: before a node each bit is the opposite but at Start, where
/// it stays; after a node each is; ahead none is.
fn flip_for(rows: &mut Rows, statement: Statement)
    ensures { AreFlippedFor statement rows.old rows.new }
{
    match statement {
        Statement::Before => rows.flip_rows(1),
        Statement::After => rows.flip_rows(0),
        Statement::Ahead => {}
    }
}
