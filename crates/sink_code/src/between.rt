// Which patterns come into each block, on every path, and which of them are blocked there.
ghost use Rattle.std.specs.Prelude.{◌<◌, ◌+◌, length, IfOk, OnOk};
ghost use Rattle.sink_code.specs.BlockRows.{AreRowsTo, IsApartFromStart, is_blocked_in};
ghost use Rattle.sink_code.specs.Coming.{AreComing};
ghost use Rattle.sink_code.specs.Over.{AreBlockedOver, AreIntoOver, AreLeavingOver, IsOverBlocks, lists_of};
ghost use Rattle.sink_code.specs.PatternRows.{AreVariableRows};

use crate::over::OverBlocks;
use crate::pattern_rows::{ByVariable, by_variable, join_blocked};
use bit_rows::Rows;
use key_rows::push_true;
use mir_base::Memory;
use path_laws::forward_all_heads;
use std::alloc::Global;

/// The patterns that come into blocks: one row for each block, one bit for each pattern.
#[derive(Drop)]
pub(crate) struct Coming {
    /// Which come into a block.
    pub(crate) into: Rows,
    /// Which of these some node of the block blocks.
    pub(crate) blocked: Rows,
}

/// Which patterns come into each block, and which of them it blocks. `leaves` says which leave a block in which they
/// occur. It fails only with `Memory`.
pub(crate) fn coming_rows(
    alloc: Global,
    over: &OverBlocks<'_>,
    leaves: &Rows,
) -> Result<Coming, Memory>
    requires over { IsOverBlocks over.now }
    requires leaves { AreLeavingOver over.now leaves.now }
    ensures { IfOk result (AreComing over.now) }
{
    let mut blocked = blocked_rows(alloc, over)?;
    let into = into_rows(alloc, over, &blocked, leaves)?;
    blocked.and_rows(&into);
    Ok(Coming { into, blocked })
}

/// Which patterns come into each block, by rows of those that are blocked in it. A pattern that is blocked in a block
/// comes out of it only where an occurrence of its own in the block leaves it.
pub(crate) fn into_rows(
    alloc: Global,
    over: &OverBlocks<'_>,
    blocked: &Rows,
    leaves: &Rows,
) -> Result<Rows, Memory>
    requires over { IsOverBlocks over.now }
    requires blocked { AreBlockedOver over.now blocked.now }
    requires leaves { AreLeavingOver over.now leaves.now }
    ensures { IfOk result (AreIntoOver over.now) }
{
    let _nodes = over.graph.nodes();
    let mut lost = blocked.copied(alloc)?;
    lost.minus_rows(leaves);
    let (graph, edges, blocks) = (over.graph, over.edges, over.blocks);
    let bits = over.table.len();
    let into = forward_all_heads(alloc, graph, edges, blocks, &lost, leaves, bits)?;
    Ok(into)
}

/// Which patterns some node of each block blocks; Start blocks all.
fn blocked_rows(alloc: Global, over: &OverBlocks<'_>) -> Result<Rows, Memory>
    requires { IsOverBlocks over.now }
    ensures { IfOk result (AreBlockedOver over.now) }
{
    let _nodes = over.graph.nodes();
    let by_variable = by_variable(alloc, over.graph.vars().len(), over.table)?;
    let mut rows = Rows::with_room(alloc, over.blocks.len(), over.table.len())?;
    for block in 0..over.blocks.len() {
        push_blocked_by(&mut rows, over, block, &by_variable)?;
    }
    Ok(rows)
}

/// Puts the row of a block at the end: the patterns that some node of the block blocks. In that of Start they are all.
fn push_blocked_by(
    rows: &mut Rows,
    over: &OverBlocks<'_>,
    block: usize,
    by_variable: &ByVariable,
) -> Result<(), Memory>
    requires over { IsOverBlocks over.now }
    requires block { block < length (lists_of over.now) }
    requires by_variable { AreVariableRows (length over.now.graph.now.vars) over.now.table.now
        by_variable.now }
    requires rows { AreRowsTo block (lists_of over.now) over.now.table.now
        (is_blocked_in over.now.graph.now) rows.old }
    ensures { OnOk result (AreRowsTo (block + 1) (lists_of over.now) over.now.table.now
        (is_blocked_in over.now.graph.now) rows.new) }
{
    let _nodes = over.graph.nodes();
    let list = over.blocks.nodes(block);
    let first = list[0];
    if first == 0 {
        push_true(rows, over.table.len())
    } else {
        push_joined(rows, over, block, by_variable)
    }
}

/// The same of a block in which Start does not stand.
fn push_joined(
    rows: &mut Rows,
    over: &OverBlocks<'_>,
    block: usize,
    by_variable: &ByVariable,
) -> Result<(), Memory>
    requires over { IsOverBlocks over.now }
    requires block { block < length (lists_of over.now) }
    requires apart { IsApartFromStart (lists_of over.now) block }
    requires by_variable { AreVariableRows (length over.now.graph.now.vars) over.now.table.now
        by_variable.now }
    requires rows { AreRowsTo block (lists_of over.now) over.now.table.now
        (is_blocked_in over.now.graph.now) rows.old }
    ensures { OnOk result (AreRowsTo (block + 1) (lists_of over.now) over.now.table.now
        (is_blocked_in over.now.graph.now) rows.new) }
{
    let nodes = over.graph.nodes();
    let shared = over.graph.shared();
    let list = over.blocks.nodes(block);
    rows.push_false(over.table.len())?;
    for node in list {
        join_blocked(rows, block, &nodes[*node], by_variable, shared);
    }
    Ok(())
}
