// Before which nodes patterns are inserted: where they are delayed, and blocked or not delayed after some edge.
ghost use Rattle.std.specs.Prelude.{◌≡◌, ◌+◌, ◌<◌, ◌↔◌, IsTrue, length, IfOk, OnOk};
ghost use Rattle.flow_graph.specs.Blocks.{IsFirst};
ghost use Rattle.sink_code.specs.Along.{AreBlockedIn, AreDelayedIn, AreInsertedIn};
ghost use Rattle.sink_code.specs.Ends.{AreBothTo, AreEndedTo};
ghost use Rattle.sink_code.specs.Over.{IsOverBlocks};

use crate::over::OverBlocks;
use bit_rows::Rows;
use graph_edit::is_skip;
use mir_base::Memory;
use std::alloc::Global;

/// Before which nodes each pattern is inserted, by rows of where it is blocked and where it is delayed. It fails only
/// with `Memory`.
///
/// What a node that does not block it hands on to the next node of its block is delayed there. So only the edges into
/// first nodes of blocks are looked at.
pub(crate) fn inserted_rows(
    alloc: Global,
    over: &OverBlocks<'_>,
    blocked: &Rows,
    delayed: &Rows,
) -> Result<Rows, Memory>
    requires over { IsOverBlocks over.now }
    requires blocked { AreBlockedIn over.now blocked.now }
    requires delayed { AreDelayedIn over.now delayed.now }
    ensures { IfOk result (AreInsertedIn over.now) }
{
    let _nodes = over.graph.nodes();
    let mut rows = both_rows(alloc, over, blocked, delayed)?;
    for number in 0..over.edges.len() {
        end_at(over, number, delayed, &mut rows);
    }
    Ok(rows)
}

/// At which nodes each pattern is both delayed and blocked.
fn both_rows(
    alloc: Global,
    over: &OverBlocks<'_>,
    blocked: &Rows,
    delayed: &Rows,
) -> Result<Rows, Memory>
    requires blocked { AreBlockedIn over.now blocked.now }
    requires delayed { AreDelayedIn over.now delayed.now }
    ensures { IfOk result
        (AreBothTo over.now blocked.now delayed.now (length over.now.graph.now.nodes)) }
{
    let count = over.graph.nodes().len();
    let mut rows = Rows::with_room(alloc, count, over.table.len())?;
    for node in 0..count {
        push_both(over, blocked, delayed, node, &mut rows)?;
    }
    Ok(rows)
}

/// Puts the row of a node at the end: the patterns that are both delayed and blocked there. A Skip blocks none.
fn push_both(
    over: &OverBlocks<'_>,
    blocked: &Rows,
    delayed: &Rows,
    node: usize,
    rows: &mut Rows,
) -> Result<(), Memory>
    requires blocked { AreBlockedIn over.now blocked.now }
    requires delayed { AreDelayedIn over.now delayed.now }
    requires node { node < length over.now.graph.now.nodes }
    requires rows { AreBothTo over.now blocked.now delayed.now node rows.old }
    ensures { OnOk result
        (AreBothTo over.now blocked.now delayed.now (node + 1) rows.new) }
{
    if is_skip(over.graph.node(node)) {
        return rows.push_false(over.table.len());
    }
    rows.push(&delayed.row(node))?;
    rows.and_into(node, blocked, node);
    Ok(())
}

/// Adds to the row of the source of an edge the patterns that are delayed there and not at its target, where the target
/// is the first node of a block.
fn end_at(over: &OverBlocks<'_>, number: usize, delayed: &Rows, rows: &mut Rows)
    requires over { IsOverBlocks over.now }
    requires number { number < length over.now.edges.now.edges }
    requires delayed { AreDelayedIn over.now delayed.now }
    requires rows { AreEndedTo over.now number rows.old }
    ensures { AreEndedTo over.now (number + 1) rows.new }
{
    let _nodes = over.graph.nodes();
    let edge = over.edges.edge(number);
    if begins_block(over, edge.target) {
        rows.or_minus_from(
            edge.source,
            &delayed.row(edge.source),
            &delayed.row(edge.target),
        );
    }
}

/// Whether a node is the first of its block.
fn begins_block(over: &OverBlocks<'_>, node: usize) -> bool
    requires over { IsOverBlocks over.now }
    requires node { node < length over.now.graph.now.nodes }
    ensures { IsTrue result ↔ IsFirst over.now.graph.now.nodes node }
{
    let _nodes = over.graph.nodes();
    let list = over.blocks.nodes(over.blocks.block_of(node));
    list[0] == node
}
