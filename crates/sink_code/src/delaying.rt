// Where assignments are delayed to, and where they are inserted.
ghost use Rattle.std.specs.Prelude.{◌≡◌, ◌<◌, ℕ, length, IfOk};
ghost use Rattle.flow_graph.specs.Edges.{IsSplit, edges_of};
ghost use Rattle.flow_graph.specs.Graphs.{GraphShape, IsGraph};
ghost use Rattle.graph_edit.specs.Accesses.{blocks_at};
ghost use Rattle.sink_code.specs.Delaying.{AreApartAt, IsDelayedTo, IsInsertedAt, IsPassedAtSkips};
ghost use Rattle.sink_code.specs.FoundPatterns.{AreFoundIn};
ghost use Rattle.sink_code.specs.Moving.{AreMoving};
ghost use Rattle.sink_code.specs.PatternRows.{AreRowsTelling, ArePatternRows};
ghost use Rattle.sink_code.specs.PatternTables.{AreSinkableBelow};

use crate::along::delayed_rows;
use crate::ends::inserted_rows;
use crate::over::OverBlocks;
use crate::pattern_rows::blocking_rows;
use crate::patterns::{Pattern, Patterns, moving_patterns};
use bit_rows::Rows;
use flow_graph::{Blocks, Edges, Graph};
use key_table::KeyTable;
use mir_base::Memory;
use std::alloc::Global;

/// Has no effect; carries the theorem that what is inserted before one node leaves each other alone: the patterns have
/// different variables, and none assigns what another reads. So their order makes no difference.
pub fn inserted_apart()
    ensures { (graph : GraphShape) → IsGraph graph.vars graph.received graph.nodes →
        (n : ℕ) → n < length graph.nodes → AreApartAt graph n }
{}

/// Has no effect; carries the theorem that in a split graph a pattern that is inserted before a node that does not
/// block it is inserted before a Skip. So it is put on an edge, and the paths that do not come over this edge do not
/// evaluate it.
pub fn inserted_at_skips()
    ensures { (graph : GraphShape) → IsGraph graph.vars graph.received graph.nodes →
        IsSplit graph.nodes → (n : ℕ) → IsPassedAtSkips graph n }
{}

/// The patterns of a graph that can still move, and where they are blocked, delayed and inserted: rows with one row for
/// each node and one bit for each pattern.
#[derive(Drop)]
pub struct DelayedPatterns {
    /// The patterns with an occurrence from which Skips lead on to no node that blocks them, in order of their
    /// variables; those of one variable in order of the first such occurrence. A Skip leads on to a node that no other
    /// edge enters.
    pub table: KeyTable<Pattern>,
    /// Where a pattern is blocked: the node is Start, reads the variable, or assigns it or one of the right side.
    pub blocked: Rows,
    /// Where it is delayed: on every path to the node it has occurred before, and no node has blocked it since.
    pub delayed: Rows,
    /// Where it is inserted, before the node: it is delayed there, and blocked, or not delayed at some successor.
    pub inserted: Rows,
}

impl DelayedPatterns {
    /// The patterns of a graph that can still move, and where they are blocked, delayed and inserted. `edges` are those
    /// of the graph. It fails only with `Memory`.
    pub fn of(alloc: Global, graph: &Graph, edges: &Edges) -> Result<DelayedPatterns, Memory>
        requires { edges.now ≡ edges_of graph.now.nodes }
        ensures moving { IfOk result (λ found. AreMoving graph.now found.table) }
        ensures blocked { IfOk result (λ found.
            ArePatternRows graph.now found.table (λ x t. blocks_at x t graph.now) found.blocked) }
        ensures delayed { IfOk result (λ found.
            AreRowsTelling graph.now found.table (IsDelayedTo graph.now) found.delayed) }
        ensures inserted { IfOk result (λ found.
            AreRowsTelling graph.now found.table (IsInsertedAt graph.now) found.inserted) }
    {
        let table = moving_patterns(alloc, graph, edges)?;
        let found = found_of(alloc, graph, edges, table)?;
        Ok(found)
    }
}

/// The patterns of this table, and where they are delayed and inserted. Where there is no pattern, nothing is solved.
fn found_of(
    alloc: Global,
    graph: &Graph,
    edges: &Edges,
    table: Patterns,
) -> Result<DelayedPatterns, Memory>
    requires edges { edges.now ≡ edges_of graph.now.nodes }
    requires sinkable { AreSinkableBelow (length graph.now.vars) table }
    ensures { IfOk result (AreFoundIn graph.now table) }
{
    if table.len() == 0 {
        let found = found_of_none(alloc, graph, table)?;
        Ok(found)
    } else {
        let found = found_of_some(alloc, graph, edges, table)?;
        Ok(found)
    }
}

/// The same of a table of no patterns: each row has no bits.
fn found_of_none(alloc: Global, graph: &Graph, table: Patterns) -> Result<DelayedPatterns, Memory>
    requires { length table ≡ 0 }
    ensures { IfOk result (AreFoundIn graph.now table) }
{
    let blocked = Rows::new(alloc, graph.len(), 0)?;
    let delayed = Rows::new(alloc, graph.len(), 0)?;
    let inserted = Rows::new(alloc, graph.len(), 0)?;
    Ok(DelayedPatterns {
        table,
        blocked,
        delayed,
        inserted,
    })
}

/// The same of any table, block by block.
fn found_of_some(
    alloc: Global,
    graph: &Graph,
    edges: &Edges,
    table: Patterns,
) -> Result<DelayedPatterns, Memory>
    requires edges { edges.now ≡ edges_of graph.now.nodes }
    requires sinkable { AreSinkableBelow (length graph.now.vars) table }
    ensures { IfOk result (AreFoundIn graph.now table) }
{
    let blocks = Blocks::of(alloc, graph, edges)?;
    let over = OverBlocks {
        graph,
        edges,
        blocks: &blocks,
        table: &table,
    };
    let blocked = blocking_rows(alloc, graph, &table)?;
    let delayed = delayed_rows(alloc, &over, &blocked)?;
    let inserted = inserted_rows(alloc, &over, &blocked, &delayed)?;
    Ok(DelayedPatterns {
        table,
        blocked,
        delayed,
        inserted,
    })
}
