// At which nodes patterns are delayed: what comes into each block, taken through its nodes.
ghost use Rattle.std.specs.Prelude.{◌≡◌, ◌+◌, ◌<◌, length, slice_get, IfOk, OnOk, Some};
ghost use Rattle.sink_code.specs.Along.{AreBlockedIn, AreCarriedTo, AreDelayedIn, HasPassed, IsHandedOver, IsPassedOver, TellsOccurrence};
ghost use Rattle.sink_code.specs.BlockRows.{AreRowsTo, is_blocked_in, leaves_own};
ghost use Rattle.sink_code.specs.Over.{AreBlockedOver, AreIntoOver, AreLeavingOver, IsOverBlocks, lists_of};
ghost use Rattle.path_laws.specs.Paths.{AreRows};

use crate::between::into_rows;
use crate::inside::goes_on;
use crate::over::OverBlocks;
use crate::patterns::pattern_at;
use bit_rows::Rows;
use flow_graph::Node;
use graph_edit::is_skip;
use mir_base::Memory;
use std::alloc::Global;

/// At which nodes each pattern is delayed: on every path from Start it has occurred, and no node has blocked it since.
/// `blocked` says at which nodes each is blocked. It fails only with `Memory`.
pub(crate) fn delayed_rows(
    alloc: Global,
    over: &OverBlocks<'_>,
    blocked: &Rows,
) -> Result<Rows, Memory>
    requires over { IsOverBlocks over.now }
    requires blocked { AreBlockedIn over.now blocked.now }
    ensures { IfOk result (AreDelayedIn over.now) }
{
    let stopped = stopped_rows(alloc, over, blocked)?;
    let leaves = leaving_rows(alloc, over, blocked)?;
    let into = into_rows(alloc, over, &stopped, &leaves)?;
    carried_rows(alloc, over, blocked, &into)
}

// ---- what blocks do

/// Which patterns some node of each block blocks.
fn stopped_rows(alloc: Global, over: &OverBlocks<'_>, blocked: &Rows) -> Result<Rows, Memory>
    requires over { IsOverBlocks over.now }
    requires blocked { AreBlockedIn over.now blocked.now }
    ensures { IfOk result (AreBlockedOver over.now) }
{
    let mut rows = Rows::with_room(alloc, over.blocks.len(), over.table.len())?;
    for block in 0..over.blocks.len() {
        push_stopped(over, block, blocked, &mut rows)?;
    }
    Ok(rows)
}

/// Puts the row of a block at the end: the patterns that some node of the block blocks.
fn push_stopped(
    over: &OverBlocks<'_>,
    block: usize,
    blocked: &Rows,
    rows: &mut Rows,
) -> Result<(), Memory>
    requires over { IsOverBlocks over.now }
    requires block { block < length (lists_of over.now) }
    requires blocked { AreBlockedIn over.now blocked.now }
    requires rows { AreRowsTo block (lists_of over.now) over.now.table.now
        (is_blocked_in over.now.graph.now) rows.old }
    ensures { OnOk result (AreRowsTo (block + 1) (lists_of over.now) over.now.table.now
        (is_blocked_in over.now.graph.now) rows.new) }
{
    let nodes = over.graph.nodes();
    let list = over.blocks.nodes(block);
    rows.push_false(over.table.len())?;
    for node in list {
        if is_skip(&nodes[*node]) {
            continue;
        }
        rows.or_into(block, blocked, *node);
    }
    Ok(())
}

/// Which patterns leave each block in which they occur.
fn leaving_rows(alloc: Global, over: &OverBlocks<'_>, blocked: &Rows) -> Result<Rows, Memory>
    requires over { IsOverBlocks over.now }
    requires blocked { AreBlockedIn over.now blocked.now }
    ensures { IfOk result (AreLeavingOver over.now) }
{
    let mut rows = Rows::with_room(alloc, over.blocks.len(), over.table.len())?;
    for block in 0..over.blocks.len() {
        push_leaving(over, block, blocked, &mut rows)?;
    }
    Ok(rows)
}

/// Puts the row of a block at the end: the patterns that leave the block, in which they occur. None leaves that of a
/// Return.
fn push_leaving(
    over: &OverBlocks<'_>,
    block: usize,
    blocked: &Rows,
    rows: &mut Rows,
) -> Result<(), Memory>
    requires over { IsOverBlocks over.now }
    requires block { block < length (lists_of over.now) }
    requires blocked { AreBlockedIn over.now blocked.now }
    requires rows { AreRowsTo block (lists_of over.now) over.now.table.now
        (leaves_own over.now.graph.now) rows.old }
    ensures { OnOk result (AreRowsTo (block + 1) (lists_of over.now) over.now.table.now
        (leaves_own over.now.graph.now) rows.new) }
{
    let nodes = over.graph.nodes();
    let list = over.blocks.nodes(block);
    rows.push_false(over.table.len())?;
    if goes_on(&nodes[list[list.len() - 1]]) {
        pass_all(over, block, list, blocked, rows);
    }
    Ok(())
}

/// Takes the row of a block through its nodes, in their order.
fn pass_all(over: &OverBlocks<'_>, block: usize, list: &[usize], blocked: &Rows, rows: &mut Rows)
    requires over { IsOverBlocks over.now }
    requires list { slice_get (lists_of over.now) block ≡ Some list.now }
    requires blocked { AreBlockedIn over.now blocked.now }
    requires rows { HasPassed over.now block list.now 0 rows.old }
    ensures { HasPassed over.now block list.now (length list.now) rows.new }
{
    let _nodes = over.graph.nodes();
    for index in 0..list.len() {
        pass_over(over, blocked, list[index], block, rows);
    }
}

/// Takes a row through a node: what the node blocks is taken out, and what occurs there comes in. A Skip changes
/// nothing.
fn pass_over(over: &OverBlocks<'_>, blocked: &Rows, node: usize, row: usize, rows: &mut Rows)
    requires blocked { AreBlockedIn over.now blocked.now }
    requires node { node < length over.now.graph.now.nodes }
    requires row { row < length rows.old }
    requires rows { AreRows (length rows.old) (length over.now.table.now) rows.old }
    ensures { IsPassedOver over.now node row rows.old rows.new }
{
    if is_skip(over.graph.node(node)) {
        return;
    }
    rows.minus_into(row, blocked, node);
    if let Some(number) = number_at(over, node) {
        rows.set(row, number, true);
    }
}

/// The number of the pattern that occurs at a node, where the table has one that does.
fn number_at(over: &OverBlocks<'_>, node: usize) -> Option<usize>
    requires { node < length over.now.graph.now.nodes }
    ensures { TellsOccurrence over.now node result }
{
    over.table.find_some(pattern_at(over.graph.node(node)))
}

// ---- along the nodes of blocks

/// At which nodes each pattern is delayed, by rows of what comes into blocks.
fn carried_rows(
    alloc: Global,
    over: &OverBlocks<'_>,
    blocked: &Rows,
    into: &Rows,
) -> Result<Rows, Memory>
    requires over { IsOverBlocks over.now }
    requires blocked { AreBlockedIn over.now blocked.now }
    requires into { AreIntoOver over.now into.now }
    ensures { IfOk result (AreDelayedIn over.now) }
{
    let nodes = over.graph.nodes();
    let mut rows = Rows::new(alloc, nodes.len(), over.table.len())?;
    for block in 0..over.blocks.len() {
        carry(over, block, blocked, into, &mut rows);
    }
    Ok(rows)
}

/// Joins to the rows of the nodes of one block what is delayed there: at the first what comes into the block, and at
/// each other what the one before it hands on.
fn carry(over: &OverBlocks<'_>, block: usize, blocked: &Rows, into: &Rows, rows: &mut Rows)
    requires over { IsOverBlocks over.now }
    requires block { block < length (lists_of over.now) }
    requires blocked { AreBlockedIn over.now blocked.now }
    requires into { AreIntoOver over.now into.now }
    requires rows { AreCarriedTo over.now block rows.old }
    ensures { AreCarriedTo over.now (block + 1) rows.new }
{
    let _nodes = over.graph.nodes();
    let list = over.blocks.nodes(block);
    let head = list[0];
    rows.or_into(head, into, block);
    for place in 1..list.len() {
        hand_on(over, blocked, list[place - 1], list[place], rows);
    }
}

/// Joins to the row of a node what the one before it in its block hands on: what is delayed there and not blocked, and
/// what occurs there.
fn hand_on(over: &OverBlocks<'_>, blocked: &Rows, before: usize, node: usize, rows: &mut Rows)
    requires blocked { AreBlockedIn over.now blocked.now }
    requires before { before < length over.now.graph.now.nodes }
    requires node { node < length over.now.graph.now.nodes }
    requires rows { AreRows (length over.now.graph.now.nodes) (length over.now.table.now)
        rows.old }
    ensures { IsHandedOver over.now before node rows.old rows.new }
{
    rows.or_minus_within(node, before, &blocked.row(before));
    if let Some(number) = number_at(over, before) {
        rows.set(node, number, true);
    }
}
